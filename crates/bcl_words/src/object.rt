//! Values that are at most eight words.

ghost use Rattle.std.specs.Prelude.{◌≡◌, ℕ, ◌≤◌, ◌↔◌, List, Bool, true, false, IsNone, IfSome};
ghost use Rattle.bcl_words.specs.Words.{Fits, IsWords};

use std::marker::{Send, Sync};

/// A value that can stand in a container. It is eight words: those of its own, which determine it, and then zeros. How
/// many are its own depends on the type, which fits where they are from 1 to 8. The calls are for types that fit.
pub trait Object: Copy + Eq + Send + Sync {
    /// How many words a value has of its own, at least one.
    const WORDS: usize;

    // the same number
    ghost WORDS: { ℕ };

    // the eight words of a value, and none of what is no value
    ghost words: { Self → List ℕ };

    // whether eight words are those of a value
    ghost passes: { List ℕ → Bool };

    // a value has at least one word
    ghost some_words: { 1 ≤ WORDS };

    // words that pass are eight words, with zeros past WORDS
    ghost shape: { Fits WORDS → (w : List ℕ) → passes w ≡ true → IsWords WORDS w };

    // of values whose words pass, those with the same words are the same
    ghost same: { Fits WORDS → (x y : Self) → passes (words x) ≡ true → passes (words y) ≡ true → words x ≡ words y → x ≡ y };

    /// The value's own words, and then zeros.
    fn to_words(&self) -> [u64; 8]
        requires fits { Fits WORDS }
        ensures words { result ≡ words self.now }
        ensures passes { passes (words self.now) ≡ true };

    /// The value that has these words. `None` exactly where they don't pass, so that no value has them.
    fn from_words(w: &[u64; 8]) -> Option<Self>
        requires fits { Fits WORDS }
        ensures none { IsNone result ↔ (passes w.now ≡ false) }
        ensures some { IfSome result (λ v. words v ≡ w.now) };

    // and == says whether their words are the same
    ghost equal: { Fits WORDS → (x y : Self) → passes (words x) ≡ true → passes (words y) ≡ true → (Self.eq x y ≡ true) ↔ (words x ≡ words y) };
}
