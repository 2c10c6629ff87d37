//! Where a word stands.

ghost use Rattle.std.specs.Prelude.{◌≡◌, ◌<◌, ◌≤◌, ◌^◌};
ghost use Rattle.bcl_segment.specs.Places.{places, place_of, ptr_of, Points};

/// Names a word of a rank's segment by its offset in the segment, in words (Brock, Buluç, Yelick, ICPP 2019).
#[derive(Clone, Copy, Debug, PartialEq, Eq)]
pub struct GlobalPtr {
    pub rank: u32,
    pub offset: u32,
}

/// How many ranks there are, and how many words the segment of each has.
#[derive(Clone, Copy, Debug, PartialEq, Eq)]
pub struct Layout {
    pub ranks: u32,
    pub per_rank: u32,
}

/// Names a word of segments: by its number, where the head words come first and then the segments in the order of the
/// ranks, or by where it stands in a rank's segment.
///
/// A number costs no arithmetic at the step. A pointer costs a multiplication.
#[derive(Clone, Copy, Debug, PartialEq, Eq)]
pub enum Spot {
    /// The word with this number: a head word, or one behind them.
    Head(u32),
    /// The word that a pointer names.
    At(GlobalPtr),
}

impl Spot {
    ghost use Rattle.std.specs.Prelude.{◌+◌};
    ghost use Rattle.bcl_segment.specs.declared.layout.Spot.TheVariants.{Head};

    /// The word with this number. Of segments without head words it is the place of the word.
    #[inline(always)]
    pub fn word(number: u32) -> Spot
        ensures spot { result ≡ Head number }
    {
        Spot::Head(number)
    }

    /// The word j of an object whose words stand side by side, the first of them at this number.
    #[inline(always)]
    pub fn word_of(first: u32, j: usize) -> Spot
        requires room { first + j < 2 ^ 32 }
        ensures spot { result ≡ Head (first + j) }
    {
        Spot::Head(first + j as u32)
    }
}

impl Layout {
    /// The place of a word: its number where the words of all segments are counted in the order of the ranks.
    ///
    /// It makes no step. Condition: the rank and the offset are within the layout, which has at most 2^27 places.
    #[inline(always)]
    pub fn place(&self, ptr: GlobalPtr) -> u32
        requires points { Points self.now ptr }
        requires few { places self.now ≤ 2 ^ 27 }
        ensures place { result ≡ place_of self.now ptr }
        ensures undone { ptr_of self.now result ≡ ptr }
        ensures within { result < places self.now }
    {
        ptr.rank * self.per_rank + ptr.offset
    }

    /// The pointer to the word at a place.
    ///
    /// It makes no step. Condition: the layout has that place, and at most 2^27 in all.
    #[inline]
    pub fn ptr(&self, place: u32) -> GlobalPtr
        requires within { place < places self.now }
        requires few { places self.now ≤ 2 ^ 27 }
        ensures ptr { result ≡ ptr_of self.now place }
        ensures undone { place_of self.now result ≡ place }
        ensures points { Points self.now result }
    {
        GlobalPtr {
            rank: place / self.per_rank,
            offset: place % self.per_rank,
        }
    }
}
