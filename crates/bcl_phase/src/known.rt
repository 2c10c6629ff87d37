//! A home that knows its words.
//!
//! A home may learn its words, look at them one by one, and forget them: of all that a contract sees of it only this
//! changes, whether it knows them. It may close, too: the words are given back, and what it knew stays.

ghost use Rattle.std.specs.Prelude.{◌≡◌, ℕ, List, [], Some, None, slice_index};
ghost use Rattle.bcl_event.specs.History.{state_after};
ghost use Rattle.bcl_phase.specs.Views.{knowing};
ghost use Rattle.bcl_phase.specs.Parts.{home_view, home_words, home_key, home_word, closed_view, HomeHasSpot, IsSameHome};

use crate::home::{FIRST, Owned};
use crate::told::{Forgets, Knows, Looks};
use crate::{Home, Phased};
use bcl_segment::{Resting, Spot};

/// What a home knew, whose words were given back.
#[derive(Drop)]
pub struct Closed<R: Phased> {
    pub(crate) home: Resting<R>,
}

impl<R: Phased> Home<R> {
    /// Learns the words. One load of the first word, which isn't counted.
    pub fn learn(&mut self)
        ensures view { home_view self.new ≡ knowing (Some (home_words self.new)) (home_view self.old) }
        ensures words { (ws : List ℕ) → (home_view self.old).words ≡ Some ws → home_words self.new ≡ ws }
        ensures fit { R.fits (home_key self.old) 0 (home_words self.new) (state_after (R.next (home_key self.old)) (R.start (home_key self.old)) (home_view self.old).seen) [] }
        ensures same { IsSameHome self.old self.new }
    {
        let owned = &mut self.owned;
        owned.segments.get::<Knows<R>>(&mut owned.seat, FIRST);
    }

    /// The word at a spot, by one load, which isn't counted. Condition: the words are known.
    pub fn look(&mut self, spot: Spot) -> u64
        requires spot { HomeHasSpot self.old spot }
        requires known { (home_view self.old).words ≡ Some (home_words self.old) }
        ensures value { result ≡ slice_index (home_words self.old) (home_word self.old spot) }
        ensures view { home_view self.new ≡ home_view self.old }
        ensures same { IsSameHome self.old self.new }
    {
        let owned = &mut self.owned;
        owned.segments.get::<Looks<R>>(&mut owned.seat, spot)
    }

    /// Forgets the words. One load of the first word, which isn't counted.
    pub fn forget(&mut self)
        ensures view { home_view self.new ≡ knowing None (home_view self.old) }
        ensures same { IsSameHome self.old self.new }
    {
        let owned = &mut self.owned;
        owned.segments.get::<Forgets<R>>(&mut owned.seat, FIRST);
    }

    /// Gives the words back. What the home knew stays. It makes no step.
    pub fn close(self) -> Closed<R>
        ensures view { closed_view result ≡ home_view self }
        ensures key { (closed_view result).key ≡ Some (home_key self) }
    {
        let Owned {
            segments,
            seat,
            layout: _,
            heads: _,
        } = self.owned;
        drop(segments);
        Closed { home: seat.rest() }
    }
}
