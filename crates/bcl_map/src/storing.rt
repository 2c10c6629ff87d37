//! The two calls that store a value for a key: an insertion and a merge.
//!
//! They make the same steps up to a bucket that has the key, so these steps are functions of the call.

ghost use Rattle.std.specs.Prelude.{◌≡◌, ℕ};
ghost use Rattle.bcl_map.specs.declared.shape.Shape.{Shape};
ghost use Rattle.bcl_map.specs.Map.{Words, owning, home};
ghost use Rattle.bcl_map.specs.Inserts.{IsStoring};
ghost use Rattle.bcl_map.specs.Walkers.{MayStore, insert_walker, insert_stores, insert_permitted, insert_answered, merge_walker, merge_stores, merge_permitted, merge_answered, store_sees, store_may};

use crate::walking::Walking;

/// A call that stores a value for a key.
pub(crate) trait Storing: Walking {
    // the words of its value
    ghost value: { Self → Words };

    /// The words of its value.
    fn value(&self) -> &[u64; 8]
        ensures { result.now ≡ value self.now };

    // it stores this value
    ghost stores: { (s : Self) (k : Words) → IsStoring k (value s) (Self.walker s k) };

    // and the rank of the key's home may make it under Own
    ghost owns: { (L : Shape) (r : ℕ) (k : Words) → home L k ≡ r → Self.may L owning r k };
}

/// An insertion of a value of these words.
#[derive(Clone, Copy)]
pub(crate) struct Inserting {
    pub value: [u64; 8],
}

/// A merge of a value of these words.
#[derive(Clone, Copy)]
pub(crate) struct Merging {
    pub value: [u64; 8],
}

impl Walking for Inserting {
    ghost walker = { λ s k. insert_walker k s.value };

    ghost may = { MayStore };

    ghost sees = { store_sees };

    ghost permitted = { λ s. insert_permitted s.value };

    ghost answered = { λ s k. insert_answered k s.value };
}

impl Storing for Inserting {
    ghost value = { λ s. s.value };

    #[inline(always)]
    fn value(&self) -> &[u64; 8] {
        &self.value
    }

    ghost stores = { λ s k. insert_stores k s.value };

    ghost owns = { store_may };
}

impl Walking for Merging {
    ghost walker = { λ s k. merge_walker k s.value };

    ghost may = { MayStore };

    ghost sees = { store_sees };

    ghost permitted = { λ s. merge_permitted s.value };

    ghost answered = { λ s k. merge_answered k s.value };
}

impl Storing for Merging {
    ghost value = { λ s. s.value };

    #[inline(always)]
    fn value(&self) -> &[u64; 8] {
        &self.value
    }

    ghost stores = { λ s k. merge_stores k s.value };

    ghost owns = { store_may };
}
