//! Laws by which two values become one.

ghost use Rattle.std.specs.Prelude.{◌≡◌, ℕ, List, true};

use crate::object::Object;
use std::marker::{Send, Sync};

/// How two values become one, so that neither their order nor which two come first matters. It has no call at run time:
/// a function is said to answer the law where the words of its result are what the law says.
pub trait MergeLaw<V: Object>: Send + Sync {
    // what the words of two values become
    ghost op: { List ℕ → List ℕ → List ℕ };

    // it is the words of a value
    ghost closed: { (a b : List ℕ) → V.passes a ≡ true → V.passes b ≡ true → V.passes (op a b) ≡ true };

    // whichever of two comes first
    ghost commutative: { (a b : List ℕ) → V.passes a ≡ true → V.passes b ≡ true → op a b ≡ op b a };

    // whichever two of three become one first
    ghost associative: { (a b c : List ℕ) → V.passes a ≡ true → V.passes b ≡ true → V.passes c ≡ true → op (op a b) c ≡ op a (op b c) };
}
