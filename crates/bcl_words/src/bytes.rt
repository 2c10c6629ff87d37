//! Bytes as words, eight to a word.

ghost use Rattle.std.specs.Prelude.{◌≡◌, ◌*◌, ◌≤◌, true, length, take};
ghost use Rattle.std.specs.Int.{from_le_bytes, w64};
ghost use Rattle.bcl_words.specs.Words.{is_words};
ghost use Rattle.bcl_words.specs.Bytes.{padded_words, bytes_of};
ghost use Rattle.bcl_words.specs.WordLaws.{words_if_test};
ghost use Rattle.bcl_words.specs.NumberLaws.{two_some, eight_some};
ghost use Rattle.bcl_words.specs.ByteLaws.{bytes_same, bytes_equal};

use crate::numbers::zeros_from;
use crate::object::Object;

/// Sixteen bytes. Byte i stands in word i / 8, at the bits from 8 * (i % 8) on.
#[derive(Clone, Copy, Debug, PartialEq, Eq)]
pub struct Bytes16 {
    pub bytes: [u8; 16],
}

/// Sixty-four bytes. Byte i stands in word i / 8, at the bits from 8 * (i % 8) on.
#[derive(Clone, Copy, Debug, PartialEq, Eq)]
pub struct Bytes64 {
    pub bytes: [u8; 64],
}

impl Object for Bytes16 {
    ghost use Rattle.bcl_words.specs.ByteValues.{same_16};

    const WORDS: usize = 2;

    ghost WORDS = { 2 };

    ghost words = { λ x. padded_words 2 x.bytes };

    ghost passes = { is_words 2 };

    ghost some_words = { two_some };

    ghost shape = { λ _ w p. words_if_test 2 w p };

    ghost same = { λ _ x y p q e. same_16 x y (bytes_same 2 x.bytes y.bytes p q e) };

    ghost equal = { λ _ x y p q. bytes_equal 2 x.bytes y.bytes p q };

    fn to_words(&self) -> [u64; 8] {
        words_of(&self.bytes, Self::WORDS)
    }

    fn from_words(w: &[u64; 8]) -> Option<Bytes16> {
        if !zeros_from(w, Self::WORDS) {
            return None;
        }
        let mut bytes = [0; 16];
        write_bytes(w, Self::WORDS, &mut bytes);
        Some(Bytes16 { bytes })
    }
}

impl Object for Bytes64 {
    ghost use Rattle.bcl_words.specs.ByteValues.{same_64};

    const WORDS: usize = 8;

    ghost WORDS = { 8 };

    ghost words = { λ x. padded_words 8 x.bytes };

    ghost passes = { is_words 8 };

    ghost some_words = { eight_some };

    ghost shape = { λ _ w p. words_if_test 8 w p };

    ghost same = { λ _ x y p q e. same_64 x y (bytes_same 8 x.bytes y.bytes p q e) };

    ghost equal = { λ _ x y p q. bytes_equal 8 x.bytes y.bytes p q };

    fn to_words(&self) -> [u64; 8] {
        words_of(&self.bytes, Self::WORDS)
    }

    fn from_words(w: &[u64; 8]) -> Option<Bytes64> {
        let mut bytes = [0; 64];
        write_bytes(w, Self::WORDS, &mut bytes);
        Some(Bytes64 { bytes })
    }
}

/// The words of 8 * `count` bytes, and zeros.
fn words_of(bytes: &[u8], count: usize) -> [u64; 8]
    requires bytes { length bytes.now ≡ 8 * count }
    requires room { count ≤ 8 }
    ensures words { result ≡ padded_words count bytes.now }
    ensures passes { is_words count (padded_words count bytes.now) ≡ true }
{
    let mut words = [0; 8];
    for i in 0..count {
        words[i] = first_word(&bytes[8 * i..]);
    }
    words
}

/// The word of the first eight bytes.
fn first_word(bytes: &[u8]) -> u64
    requires { 8 ≤ length bytes.now }
    ensures { result ≡ from_le_bytes w64 (take 8 bytes.now) }
{
    let mut eight = [0; 8];
    eight.copy_from_slice(&bytes[..8]);
    u64::from_le_bytes(eight)
}

/// Writes the bytes of the first `count` words.
fn write_bytes(w: &[u64; 8], count: usize, bytes: &mut [u8])
    requires bytes { length bytes.old ≡ 8 * count }
    requires room { count ≤ 8 }
    ensures { bytes.new ≡ bytes_of (take count w.now) }
{
    for i in 0..count {
        bytes[8 * i..8 * i + 8].copy_from_slice(&w[i].to_le_bytes());
    }
}
