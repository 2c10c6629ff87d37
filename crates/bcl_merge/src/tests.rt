//! Each law by its function, by mergers of it, and in any order.

ghost use Rattle.std.specs.Prelude.{◌≡◌, if◌then◌else◌};
ghost use Rattle.bcl_words.specs.Numbers.{two_words};
ghost use Rattle.bcl_merge.specs.LeastWords.{comes_after};

use crate::{LeastWords, Merger, Sum, least_words, wrapping_sum};
use bcl_words::{MergeLaw, Object, Pair, any_order};
use std::marker::{Send, Sync};

fn is_send<T: Send>() {}

fn is_sync<T: Sync>() {}

// Of any law and any function that ranks can share.
fn ranks_share<V: Object, L: MergeLaw<V>, F: Fn(V, V) -> V + Send + Sync>() {
    is_send::<Merger<V, L, F>>();
    is_sync::<Merger<V, L, F>>();
}

#[test]
fn sums_wrap(rt: HostRuntime) {
    assert_eq!(rt; wrapping_sum(2, 3), 5);
    assert_eq!(rt; wrapping_sum(u64::MAX, 3), 2);
    any_order::<u64, Sum>();
}

#[test]
fn the_first_word_that_differs_decides(rt: HostRuntime) {
    assert_eq!(rt; least_words(7u64, 5), 5);
    assert_eq!(rt; least_words(5u64, 7), 5);
    assert_eq!(rt; least_words(5u64, 5), 5);
    // the low word stands first, and the greater number has the lesser one
    let greater = (1u128 << 64) + 2;
    assert_eq!(rt; least_words(greater, 3), greater);
    assert_eq!(rt; least_words(3, greater), greater);
    assert_eq!(rt; least_words(greater, 2), 2);
    let pair = Pair { a: 1u64, b: 9u64 };
    assert_eq!(rt; least_words(pair, Pair { a: 2, b: 0 }), pair);
    assert_eq!(rt; least_words(Pair { a: 1, b: 10 }, pair), pair);
    any_order::<u64, LeastWords>();
    any_order::<Pair<u64, u64>, LeastWords>();
}

fn least_of_numbers(a: u128, b: u128) -> u128
    ensures { result ≡ (if comes_after (two_words a) (two_words b) then b else a) }
{
    least_words(a, b)
}

#[test]
fn mergers_merge_by_their_function(rt: HostRuntime) {
    let sums = Merger::<u64, Sum, _>::new(wrapping_sum);
    assert_eq!(rt; sums.apply(u64::MAX, 3), 2);
    let sums = Merger::<u64, Sum, _>::new(|a: u64, b: u64| b.wrapping_add(a));
    assert_eq!(rt; sums.apply(2, 3), 5);
    let least = Merger::<u128, LeastWords, _>::new(least_of_numbers);
    assert_eq!(rt; least.apply(3, 1 << 64), 1 << 64);
    let least = Merger::<Pair<u64, u64>, LeastWords, _>::new(|a: Pair<u64, u64>, b: Pair<
        u64,
        u64,
    >| least_words(a, b));
    let pair = Pair { a: 1, b: 5 };
    assert_eq!(rt; least.apply(pair, Pair { a: 1, b: 9 }), pair);
    assert_eq!(rt; least.apply(Pair { a: 2, b: 0 }, pair), pair);
}
