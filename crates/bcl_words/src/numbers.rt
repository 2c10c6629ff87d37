//! Numbers as words.

ghost use Rattle.std.specs.Prelude.{◌≡◌, ◌≤◌, ◌^◌, ◌==◌};
ghost use Rattle.std.specs.List.{list_all};
ghost use Rattle.bcl_words.specs.Words.{is_words};
ghost use Rattle.bcl_words.specs.Numbers.{one_word, two_words, is_below};
ghost use Rattle.bcl_words.specs.WordLaws.{words_if_test};
ghost use Rattle.bcl_words.specs.NumberLaws.{numbers_equal, one_some, one_shape, one_same, two_some, two_same};

use crate::object::Object;

fn are_zeros(words: &[u64]) -> bool
    ensures { result ≡ list_all (λ x. x == 0) words.now }
{
    words.iter().all(|word| *word == 0)
}

/// Whether the words from a place on are zeros, as they are behind the words of an object that has so many.
pub fn zeros_from(w: &[u64; 8], place: usize) -> bool
    requires { place ≤ 8 }
    ensures { result ≡ is_words place w.now }
{
    are_zeros(&w[place..])
}

impl Object for u8 {
    const WORDS: usize = 1;

    ghost WORDS = { 1 };

    ghost words = { one_word };

    ghost passes = { is_below (2 ^ 8) };

    ghost some_words = { one_some };

    ghost shape = { λ _ w p. one_shape (2 ^ 8) w p };

    ghost same = { λ _ x y _ _ e. one_same x y e };

    ghost equal = { λ _ x y _ _. numbers_equal one_word x y (one_same x y) };

    fn to_words(&self) -> [u64; 8] {
        u64::from(*self).to_words()
    }

    fn from_words(w: &[u64; 8]) -> Option<u8> {
        u8::try_from(u64::from_words(w)?).ok()
    }
}

impl Object for u32 {
    const WORDS: usize = 1;

    ghost WORDS = { 1 };

    ghost words = { one_word };

    ghost passes = { is_below (2 ^ 32) };

    ghost some_words = { one_some };

    ghost shape = { λ _ w p. one_shape (2 ^ 32) w p };

    ghost same = { λ _ x y _ _ e. one_same x y e };

    ghost equal = { λ _ x y _ _. numbers_equal one_word x y (one_same x y) };

    fn to_words(&self) -> [u64; 8] {
        u64::from(*self).to_words()
    }

    fn from_words(w: &[u64; 8]) -> Option<u32> {
        u32::try_from(u64::from_words(w)?).ok()
    }
}

#[tactic(auto, using(crate::proofs::NumberReads::one_read))]
impl Object for u64 {
    const WORDS: usize = 1;

    ghost WORDS = { 1 };

    ghost words = { one_word };

    ghost passes = { is_below (2 ^ 64) };

    ghost some_words = { one_some };

    ghost shape = { λ _ w p. one_shape (2 ^ 64) w p };

    ghost same = { λ _ x y _ _ e. one_same x y e };

    ghost equal = { λ _ x y _ _. numbers_equal one_word x y (one_same x y) };

    fn to_words(&self) -> [u64; 8] {
        [*self, 0, 0, 0, 0, 0, 0, 0]
    }

    fn from_words(w: &[u64; 8]) -> Option<u64> {
        if zeros_from(w, 1) { Some(w[0]) } else { None }
    }
}

#[tactic(auto, using(crate::proofs::NumberReads::two_read))]
impl Object for u128 {
    const WORDS: usize = 2;

    ghost WORDS = { 2 };

    ghost words = { two_words };

    ghost passes = { is_words 2 };

    ghost some_words = { two_some };

    ghost shape = { λ _ w p. words_if_test 2 w p };

    ghost same = { λ _ x y _ _ e. two_same x y e };

    ghost equal = { λ _ x y _ _. numbers_equal two_words x y (two_same x y) };

    fn to_words(&self) -> [u64; 8] {
        let low = (*self % (1 << 64)) as u64;
        let high = (*self >> 64) as u64;
        [low, high, 0, 0, 0, 0, 0, 0]
    }

    fn from_words(w: &[u64; 8]) -> Option<u128> {
        if zeros_from(w, 2) {
            Some(w[0] as u128 + w[1] as u128 * (1 << 64))
        } else {
            None
        }
    }
}
