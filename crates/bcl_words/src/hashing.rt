//! A hash of words.

ghost use Rattle.std.specs.Prelude.{◌≡◌, take};
ghost use Rattle.bcl_words.specs.Words.{Fits};
ghost use Rattle.bcl_words.specs.Hash.{hash_of, hash_step};

use crate::Object;

/// The hash of the words of a key, each taken once and in order. It finds the place of a key in a container, and isn't
/// made to withstand keys that are chosen to meet.
pub fn hash(words: &[u64]) -> u64
    ensures { result ≡ hash_of words.now }
{
    let mut h = 0;
    for word in words {
        h = stepped(h, *word);
    }
    h ^ (h >> 32)
}

/// The hash of a key whose eight words these are: of those of its own.
#[inline(always)]
pub fn key_hash<K: Object>(words: &[u64; 8]) -> u64
    requires fits { Fits K.WORDS }
    ensures hash { result ≡ hash_of (take K.WORDS words.now) }
{
    hash(&words[..K::WORDS])
}

/// The hash so far, and one word more.
#[inline(always)]
fn stepped(h: u64, word: u64) -> u64
    ensures { result ≡ hash_step h word }
{
    (h ^ word)
        .rotate_left(29)
        .wrapping_mul(0x9E37_79B9_7F4A_7C15)
}
