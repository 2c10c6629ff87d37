//! The sum modulo 2^64.

ghost use Rattle.std.specs.Prelude.{◌≡◌, ◌+◌, ◌%◌, ◌^◌};
ghost use Rattle.bcl_merge.specs.Sum.{sum_of};
ghost use Rattle.bcl_merge.specs.SumLaws.{sum_closed, sum_commutative, sum_associative};

use bcl_words::{MergeLaw, Object};

/// The law of the sum modulo 2^64.
#[derive(Clone, Copy, Debug)]
pub struct Sum;

impl MergeLaw<u64> for Sum {
    ghost op = { sum_of };

    ghost closed = { λ a b _ _. sum_closed a b };

    ghost commutative = { λ a b _ _. sum_commutative a b };

    ghost associative = { λ a b c _ _ _. sum_associative a b c };
}

/// The sum modulo 2^64, which answers the law [`Sum`].
pub fn wrapping_sum(a: u64, b: u64) -> u64
    ensures value { result ≡ (a + b) % 2 ^ 64 }
    ensures law { ⟦<u64 as Object>⟧.words result ≡ ⟦<Sum as MergeLaw<u64>>⟧.op (⟦<u64 as Object>⟧.words a) (⟦<u64 as Object>⟧.words b) }
{
    a.wrapping_add(b)
}
