//! The steps of a home, as no call is in flight.
//!
//! The home has the container alone, so it knows the whole history. It counts as the rank whose number is the number of
//! ranks, and a step may make calls of its own. From its first step on it knows the words too, so what it reads in several
//! steps belongs together.

ghost use Rattle.std.specs.Prelude.{◌≡◌};
ghost use Rattle.bcl_phase.specs.Views.{get as a_get, put as a_put};
ghost use Rattle.bcl_phase.specs.Rule.{Rests, Pairs};
ghost use Rattle.bcl_phase.specs.Told.{HomeTold, PairTold};
ghost use Rattle.bcl_phase.specs.Parts.{home_key, home_layout, home_view, home_word, HomeHasSpot, IsSameHome};

use crate::home::FIRST;
use crate::told::{HomeGets, HomePuts, LoosePuts, Loosens, MendPuts};
use crate::{Home, Learns, Phased};
use bcl_segment::{Layout, Spot};

impl<R: Phased> Home<R> {
    /// The word at a spot, by one load. It raises `gets` by one.
    pub fn get<M: Learns<R::State, R::Call, R::Note>, E>(&mut self, spot: Spot, about: &E) -> u64
        requires spot { HomeHasSpot self.old spot }
        requires step { Rests R.next R.permits R.fits (home_key self.old) (home_view self.old).words (home_word self.old spot) (λ n. n) (λ n t did. M.then n t did R.rest) }
        ensures told { HomeTold R.start R.next R.fits (home_key self.old) a_get (home_view self.old) (home_word self.old spot) (λ n. n) (λ n t did. M.then n t did R.rest) result (home_view self.new) }
        ensures same { IsSameHome self.old self.new }
    {
        let owned = &mut self.owned;
        owned.segments.get::<HomeGets<R, M>>(&mut owned.seat, spot)
    }

    /// Puts a word at a spot, by one store. It raises `puts` by one.
    pub fn put<M: Learns<R::State, R::Call, R::Note>, E>(
        &mut self,
        spot: Spot,
        word: u64,
        about: &E,
    )
        requires spot { HomeHasSpot self.old spot }
        requires step { Rests R.next R.permits R.fits (home_key self.old) (home_view self.old).words (home_word self.old spot) (λ _. word) (λ _ t did. M.then word t did R.rest) }
        ensures told { HomeTold R.start R.next R.fits (home_key self.old) a_put (home_view self.old) (home_word self.old spot) (λ _. word) (λ n t did. M.then n t did R.rest) word (home_view self.new) }
        ensures same { IsSameHome self.old self.new }
    {
        let owned = &mut self.owned;
        owned
            .segments
            .put::<HomePuts<R, M>>(&mut owned.seat, spot, word);
    }

    /// Puts a word at each of two spots, by a store each, where the words between the two mean nothing. The second
    /// makes the calls. Besides, one load of the first word before, which isn't counted.
    pub fn put_both<M: Learns<R::State, R::Call, R::Note>, E>(
        &mut self,
        first: Spot,
        word: u64,
        second: Spot,
        other: u64,
        about: &E,
    )
        requires first { HomeHasSpot self.old first }
        requires second { HomeHasSpot self.old second }
        requires step { Pairs R.next R.permits R.fits (home_key self.old) (home_view self.old).words (home_word self.old first) word (home_word self.old second) other (λ t did. M.then other t did R.rest) }
        ensures told { PairTold R.start R.next R.fits (home_key self.old) (home_view self.old) (home_word self.old first) word (home_word self.old second) other (λ t did. M.then other t did R.rest) (home_view self.new) }
        ensures same { IsSameHome self.old self.new }
    {
        let owned = &mut self.owned;
        owned.segments.get::<Loosens<R>>(&mut owned.seat, FIRST);
        owned
            .segments
            .put::<LoosePuts<R>>(&mut owned.seat, first, word);
        owned
            .segments
            .put::<MendPuts<R, M>>(&mut owned.seat, second, other);
    }

    /// How many ranks there are, and how many words the segment of each has.
    pub fn layout(&self) -> Layout
        ensures layout { result ≡ home_layout self.now }
    {
        self.owned.layout
    }
}
