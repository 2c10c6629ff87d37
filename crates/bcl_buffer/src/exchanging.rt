//! The exchange of all buffers' lanes.

ghost use Rattle.std.specs.Prelude.{◌≡◌, ◌<◌, ◌+◌, ℕ, List, All, length, set};
ghost use Rattle.bcl_words.specs.declared.pair.Pair.{Pair};
ghost use Rattle.bcl_buffer.specs.declared.buffer.State.TheVariants.{Turning};
ghost use Rattle.bcl_buffer.specs.Lanes.{Lanes, lane, home_in};
ghost use Rattle.bcl_buffer.specs.Exchanges.{at, AllFill, Exchanges};
ghost use Rattle.bcl_buffer.specs.Turning.{with_lane, AreWide, AreTurning, Opened, Turned};

use crate::buffer::Buffer;
use bcl_words::Object;
use std::mem::swap;

// A lane of one buffer and a lane of another change places.
fn swap_lanes<K: Object, V: Object>(
    one: &mut Buffer<K, V>,
    first: usize,
    other: &mut Buffer<K, V>,
    second: usize,
)
    requires first { first < length one.old.lanes }
    requires second { second < length other.old.lanes }
    requires turning { (one.old.state ≡ Turning) × (other.old.state ≡ Turning) }
    ensures one { one.new ≡ with_lane one.old first (lane other.old second) }
    ensures other { other.new ≡ with_lane other.old second (lane one.old first) }
{
    swap(&mut one.lanes[first], &mut other.lanes[second]);
}

// Lane s of buffer r and lane r of buffer s change places.
fn swap_at<K: Object, V: Object>(buffers: &mut [Buffer<K, V>], r: usize, s: usize)
    requires below { s < r }
    requires within { r < length buffers.old }
    requires wide { AreWide buffers.old }
    requires turning { AreTurning buffers.old }
    ensures swapped { buffers.new ≡ set (set buffers.old s (with_lane (at buffers.old s) r (lane (at buffers.old r) s))) r (with_lane (at buffers.old r) s (lane (at buffers.old s) r)) }
{
    let (low, high) = buffers.split_at_mut(r);
    swap_lanes(&mut low[s], r, &mut high[0], s);
}

// The lanes of buffer r for the ranks below change places with theirs for r.
fn turn_row<K: Object, V: Object>(buffers: &mut [Buffer<K, V>], r: usize)
    requires within { r < length buffers.old }
    requires wide { AreWide buffers.old }
    requires turning { AreTurning buffers.old }
    ensures turned { (start : List (Lanes (Pair K V))) → Turned start buffers.old r 0 → Turned start buffers.new (r + 1) 0 }
    ensures count { length buffers.new ≡ length buffers.old }
    ensures wide { AreWide buffers.new }
    ensures turning { AreTurning buffers.new }
{
    for s in 0..r {
        swap_at(buffers, r, s);
    }
}

// All lanes change places.
fn turn<K: Object, V: Object>(buffers: &mut [Buffer<K, V>])
    requires wide { AreWide buffers.old }
    requires turning { AreTurning buffers.old }
    ensures turned { Turned buffers.old buffers.new (length buffers.old) 0 }
{
    for r in 0..buffers.len() {
        turn_row(buffers, r);
    }
}

// Each buffer gives its lanes away.
fn open<K: Object, V: Object>(buffers: &mut [Buffer<K, V>])
    requires fill { AllFill buffers.old }
    ensures opened { Opened (λ shape p. home_in K.WORDS shape (K.words p.a)) buffers.old buffers.new }
{
    for r in 0..buffers.len() {
        buffers[r].open();
    }
}

/// Lane s of buffer r becomes what lane r of buffer s was, for all ranks r and s, and all buffers are exchanged: each has
/// the pairs of its own rank. It takes no memory, and moves no pair.
pub fn exchange<K: Object, V: Object>(buffers: &mut [Buffer<K, V>])
    requires fill { AllFill buffers.old }
    ensures exchanges { Exchanges buffers.old buffers.new }
    ensures homes { (r s : ℕ) → r < length buffers.old → All (λ p. home_in K.WORDS (at buffers.old r).shape (K.words p.a) ≡ s) (lane (at buffers.old r) s) }
{
    open(buffers);
    turn(buffers);
    for r in 0..buffers.len() {
        buffers[r].settle();
    }
}
