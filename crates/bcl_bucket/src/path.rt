//! The path of a key: the places where it may stand, in the order in which they are tried.

ghost use Rattle.std.specs.Prelude.{◌≡◌, ◌≤◌, ◌<◌, ◌+◌, ◌/◌, ◌%◌, ◌^◌, IsPermutation};
ghost use Rattle.std.specs.List.{range_with_len};
ghost use Rattle.std.specs.Iterator.{YieldsFirst, item_count};
ghost use Rattle.bcl_words.specs.Words.{Fits};
ghost use Rattle.bcl_segment.specs.Places.{places};
ghost use Rattle.bcl_bucket.specs.Paths.{start_of, path};

use bcl_segment::Layout;
use bcl_words::{Object, key_hash};
use std::marker::Model;

/// The place where the path of a key begins, among so many: the hash of its words modulo their number.
pub fn start<K: Object>(key: &K, places: u32) -> u32
    requires fits { Fits K.WORDS }
    requires some { 1 ≤ places }
    ensures start { result ≡ start_of K.WORDS (K.words key.now) places }
    ensures below { result < places }
{
    start_of_words::<K>(&key.to_words(), places)
}

/// The same, of the key whose eight words these are.
#[inline(always)]
pub fn start_of_words<K: Object>(words: &[u64; 8], places: u32) -> u32
    requires fits { Fits K.WORDS }
    requires some { 1 ≤ places }
    ensures start { result ≡ start_of K.WORDS words.now places }
    ensures below { result < places }
{
    (key_hash::<K>(words) % u64::from(places)) as u32
}

/// The home of a key: the rank in whose segment its path begins, among the places of all segments.
pub fn home_rank<K: Object>(key: &K, shape: Layout) -> u32
    requires fits { Fits K.WORDS }
    requires some { 1 ≤ places shape }
    requires few { places shape ≤ 2 ^ 27 }
    ensures home { result ≡ start_of K.WORDS (K.words key.now) (places shape) / shape.per_rank }
    ensures below { result < shape.ranks }
{
    start(key, shape.ranks * shape.per_rank) / shape.per_rank
}

/// The places from one on, each once: after the last comes place 0. A contract sees the list of those that are left.
#[derive(Drop)]
pub struct Path {
    place: u32,
    left: u32,
    places: u32,
}

impl Model for Path {
    ghost use Rattle.std.specs.Prelude.{ℕ, List, map, ◌%◌, ◌<◌};
    ghost use Rattle.std.specs.List.{range_with_len};

    ghost Value = { List ℕ };

    ghost view = { λ p. map (λ i. i % p.places) (range_with_len p.place p.left) };

    ghost invariant = { λ p. p.place < p.places };
}

impl Path {
    /// The path from a place on, through all of so many.
    pub fn new(start: u32, places: u32) -> Path
        requires below { start < places }
        ensures path { result ≡ path start places }
        ensures once { IsPermutation result (range_with_len 0 places) }
    {
        Path {
            place: start,
            left: places,
            places,
        }
    }
}

// After the last place comes place 0.
#[inline(always)]
fn next_place(place: u32, places: u32) -> u32
    requires below { place < places }
    ensures next { result ≡ (place + 1) % places }
    ensures below { result < places }
{
    if place + 1 == places { 0 } else { place + 1 }
}

impl Iterator for Path {
    type Item = u32;

    ghost next_gives = { YieldsFirst (λ p. p) };

    ghost remaining = { item_count (λ p. p) };

    #[inline(always)]
    fn next(&mut self) -> Option<u32> {
        if self.left == 0 {
            return None;
        }
        let here = self.place;
        self.left -= 1;
        self.place = next_place(here, self.places);
        Some(here)
    }
}
