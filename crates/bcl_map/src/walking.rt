//! The calls that walk along the path of a key: a find, and those that store a value.
//!
//! They make the same steps up to the bucket where they end, so these steps are functions of the call.

ghost use Rattle.std.specs.Prelude.{ℕ};
ghost use Rattle.bcl_map.specs.declared.shape.Shape.{Shape};
ghost use Rattle.bcl_map.specs.Map.{Words, permits};
ghost use Rattle.bcl_map.specs.Finds.{MaySee};
ghost use Rattle.bcl_map.specs.Walking.{Walker, IsAnswered};
ghost use Rattle.bcl_map.specs.Walkers.{find_walker, find_answered, find_permitted, find_sees};

use std::marker::Copy;

/// A call on a key: what it has beside the key.
pub(crate) trait Walking: Copy {
    // on a key of these words: the call, and what it is answered where its walk ends without the key
    ghost walker: { Self → Words → Walker };

    // who may make it: under a promise, a rank, on a key
    ghost may: { Shape → ℕ → ℕ → Words → Type 0 };

    // no other rank changes the value of its key
    ghost sees: { (L : Shape) (p r : ℕ) (k : Words) → may L p r k → MaySee L p r k };

    // the promise permits it
    ghost permitted: { (s : Self) (L : Shape) (p r : ℕ) (k : Words) → may L p r k → permits L p r (walker s k).call };

    // and so it is answered
    ghost answered: { (s : Self) (k : Words) → IsAnswered (walker s k) k };
}

/// A find.
#[derive(Clone, Copy)]
pub(crate) struct Finding;

impl Walking for Finding {
    ghost walker = { λ s k. find_walker k };

    ghost may = { MaySee };

    ghost sees = { find_sees };

    ghost permitted = { λ s. find_permitted };

    ghost answered = { λ s. find_answered };
}
