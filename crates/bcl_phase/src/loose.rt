//! A home whose words need not fit.
//!
//! The home may have to change several words where the words between mean nothing. While its words are loose a step owes
//! no proof, and makes no call. The home knows its words all the time, so it can show in the end that they fit again.

ghost use Rattle.std.specs.Prelude.{◌≡◌, ℕ, List, [], Some, slice_index, slice_set};
ghost use Rattle.bcl_event.specs.History.{state_after};
ghost use Rattle.bcl_segment.specs.Parts.{view_of};
ghost use Rattle.bcl_phase.specs.Views.{get as a_get, put as a_put, words_of, loosened, loose_after, mended};

use crate::home::{FIRST, Owned};
use crate::told::{LooseGets, LoosePuts, Loosens, Mends};
use crate::{Home, Phased};
use bcl_segment::Spot;

/// A container that one caller has alone, and whose words need not fit until it is mended.
#[derive(Drop)]
pub struct Loose<R: Phased> {
    pub(crate) owned: Owned<R>,
    pub ghost alone: { (view_of owned.seat).passes ≡ 0 },
    pub ghost known: { (view_of owned.seat).words ≡ Some (words_of (view_of owned.seat)) },
    pub ghost at_home: { (view_of owned.seat).promise ≡ 0 },
}

impl<R: Phased> Home<R> {
    ghost use Rattle.bcl_phase.specs.Parts.{home_view, loose_view, loose_words, loose_key, IsLooseOf};

    /// Lets the words be loose. One load of the first word, which isn't counted.
    pub fn loosen(self) -> Loose<R>
        ensures view { loose_view result ≡ loosened (loose_words result) (home_view self) }
        ensures words { (ws : List ℕ) → (home_view self).words ≡ Some ws → loose_words result ≡ ws }
        ensures fit { R.fits (loose_key result) 0 (loose_words result) (state_after (R.next (loose_key result)) (R.start (loose_key result)) (home_view self).seen) [] }
        ensures same { IsLooseOf result self }
    {
        let Owned {
            segments,
            mut seat,
            layout,
            heads,
        } = self.owned;
        segments.get::<Loosens<R>>(&mut seat, FIRST);
        Loose {
            owned: Owned {
                segments,
                seat,
                layout,
                heads,
            },
        }
    }
}

impl<R: Phased> Loose<R> {
    ghost use Rattle.bcl_phase.specs.Parts.{home_view, loose_view, loose_words, loose_key, loose_word, LooseHasSpot, IsLooseOf, IsSameLoose};

    /// The word at a spot, by one load. It raises `gets` by one.
    pub fn get(&mut self, spot: Spot) -> u64
        requires spot { LooseHasSpot self.old spot }
        ensures value { result ≡ slice_index (loose_words self.old) (loose_word self.old spot) }
        ensures view { loose_view self.new ≡ loose_after a_get (loose_words self.old) (loose_view self.old) }
        ensures same { IsSameLoose self.old self.new }
    {
        let owned = &mut self.owned;
        owned.segments.get::<LooseGets<R>>(&mut owned.seat, spot)
    }

    /// Puts a word at a spot, by one store. It raises `puts` by one.
    pub fn put(&mut self, spot: Spot, word: u64)
        requires spot { LooseHasSpot self.old spot }
        ensures view { loose_view self.new ≡ loose_after a_put (slice_set (loose_words self.old) (loose_word self.old spot) word) (loose_view self.old) }
        ensures same { IsSameLoose self.old self.new }
    {
        let owned = &mut self.owned;
        owned
            .segments
            .put::<LoosePuts<R>>(&mut owned.seat, spot, word);
    }

    /// The words are to fit from then on. One load of the first word, which isn't counted.
    ///
    /// Condition: they fit what the home has seen.
    pub fn mend(self) -> Home<R>
        requires fit { R.fits (loose_key self) 0 (loose_words self) (state_after (R.next (loose_key self)) (R.start (loose_key self)) (loose_view self).seen) [] }
        ensures view { home_view result ≡ mended (loose_words self) (loose_view self) }
        ensures same { IsLooseOf self result }
    {
        let Owned {
            segments,
            mut seat,
            layout,
            heads,
        } = self.owned;
        segments.get::<Mends<R>>(&mut seat, FIRST);
        Home {
            owned: Owned {
                segments,
                seat,
                layout,
                heads,
            },
        }
    }
}
