//! What follows from the laws of objects and of merges for code that is generic in them.

ghost use Rattle.std.specs.Prelude.{◌≡◌, ◌↔◌, Some, IsTrue};
ghost use Rattle.bcl_words.specs.Words.{Fits};
ghost use Rattle.bcl_words.specs.Merges.{IsSameInAnyOrder};

use crate::merge_law::MergeLaw;
use crate::object::Object;

/// The value again, read from its words.
pub fn read_back<T: Object>(value: &T) -> Option<T>
    requires fits { Fits T.WORDS }
    ensures { result ≡ Some value.now }
{
    T::from_words(&value.to_words())
}

/// Whether two values are the same, by their words.
pub fn have_same_words<T: Object>(a: &T, b: &T) -> bool
    requires fits { Fits T.WORDS }
    ensures same { IsTrue result ↔ (a.now ≡ b.now) }
    ensures equal { result ≡ T.eq a.now b.now }
{
    a.to_words() == b.to_words()
}

/// What many values become by a law is the same in any order, whichever of them comes first. It does nothing, and its
/// contract is what is proved.
pub fn any_order<V: Object, L: MergeLaw<V>>()
    ensures { IsSameInAnyOrder V.passes L.op }
{}
