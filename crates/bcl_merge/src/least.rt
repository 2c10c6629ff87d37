//! Of two values the one whose words come first.

ghost use Rattle.std.specs.Prelude.{◌≡◌, if◌then◌else◌};
ghost use Rattle.bcl_words.specs.Words.{Fits};
ghost use Rattle.bcl_merge.specs.LeastWords.{comes_after, least_of};
ghost use Rattle.bcl_merge.specs.LeastWordsLaws.{least_closed, least_commutative, least_associative};

use bcl_words::{MergeLaw, Object};
use std::cmp::Ordering;

/// The law by which two values become the one whose list of words comes first. Two lists are compared word by word from
/// the first on, each as a number, and the first that differs decides. So numbers of one word become the least. A `u128`
/// has its low word first, so that one decides, and the high word where the low words are the same. Of pairs the first
/// parts decide, and the second ones where the first are the same.
#[derive(Clone, Copy, Debug)]
pub struct LeastWords;

impl<V: Object> MergeLaw<V> for LeastWords {
    ghost op = { least_of };

    ghost closed = { λ a b p q. least_closed V.passes a b p q };

    ghost commutative = { λ a b _ _. least_commutative a b };

    ghost associative = { λ a b c _ _ _. least_associative a b c };
}

/// Of two values the one whose list of words comes first. It answers the law [`LeastWords`].
pub fn least_words<V: Object>(a: V, b: V) -> V
    requires fits { Fits V.WORDS }
    ensures value { result ≡ (if comes_after (V.words a) (V.words b) then b else a) }
    ensures law { V.words result ≡ ⟦<LeastWords as MergeLaw<V>>⟧.op (V.words a) (V.words b) }
{
    match a.to_words().cmp(&b.to_words()) {
        Ordering::Greater => b,
        Ordering::Less | Ordering::Equal => a,
    }
}
