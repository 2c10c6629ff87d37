//! The way along the path of a key, from bucket to bucket. A bucket is named by the number of its first word.

ghost use Rattle.std.specs.Prelude.{◌≡◌, ◌+◌, ◌*◌, ◌/◌, ◌^◌, ◌<◌, ◌≤◌};
ghost use Rattle.bcl_words.specs.Words.{Fits};
ghost use Rattle.bcl_segment.specs.Places as segment;
ghost use Rattle.bcl_phase.specs.Parts.{lead_key, lead_layout, lead_heads, IsOf};
ghost use Rattle.bcl_map.specs.Map as map;
ghost use Rattle.bcl_map.specs.Map.{places, path, size, IsShaped};
ghost use Rattle.bcl_map.specs.Calls.{IsBucketAt, start_at, after};

use crate::map::Map;
use bcl_bucket::start_of_words;
use bcl_phase::{Lead, Pass, Promise};
use bcl_segment::{Layout, Spot};
use bcl_words::{MergeLaw, Object};

// How many words a bucket has.
#[inline(always)]
fn bucket_words<K: Object, V: Object>() -> u32
    requires few { size K.WORDS V.WORDS ≤ 2 ^ 27 }
    ensures words { result ≡ size K.WORDS V.WORDS }
{
    1 + (K::WORDS + V::WORDS) as u32
}

// The same layout, counted in buckets.
#[inline(always)]
pub(crate) fn in_buckets<K: Object, V: Object>(layout: Layout) -> Layout
    requires few { size K.WORDS V.WORDS ≤ 2 ^ 27 }
    ensures buckets { result ≡ record { ranks = layout.ranks; per_rank = layout.per_rank / size K.WORDS V.WORDS } }
{
    Layout {
        ranks: layout.ranks,
        per_rank: layout.per_rank / bucket_words::<K, V>(),
    }
}

// The bucket at a place.
#[inline(always)]
pub(crate) fn bucket_at<K: Object, V: Object>(place: u32) -> u32
    requires few { size K.WORDS V.WORDS ≤ 2 ^ 27 }
    requires room { place * size K.WORDS V.WORDS < 2 ^ 32 }
    ensures at { result ≡ place * size K.WORDS V.WORDS }
{
    place * bucket_words::<K, V>()
}

/// A bucket on the path of a key: the number of its first word, and its own number on the path.
#[derive(Clone, Copy)]
pub(crate) struct Bucket {
    pub at: u32,
    pub number: u32,
}

/// A walk along the path of a key.
#[derive(Clone, Copy)]
pub(crate) struct Walk {
    /// How many buckets there are.
    pub places: u32,
    /// How many words they have together.
    pub end: u32,
    /// The rank in whose segment the path begins.
    pub home: u32,
    /// The bucket where it begins.
    pub first: Bucket,
}

/// Where the path of a key begins: the number of the bucket among those of all ranks, and the rank that has it.
#[derive(Clone, Copy, Debug, PartialEq, Eq)]
pub struct Start {
    pub place: u32,
    pub home: u32,
}

/// Where the path of a key with these words begins.
#[inline(always)]
pub(crate) fn start_of<K: Object, V: Object, L: MergeLaw<V>, P: Promise>(
    pass: &Pass<Map<K, V, L>, P>,
    lead: &Lead<Map<K, V, L>>,
    key: &[u64; 8],
) -> Start
    requires key { Fits K.WORDS }
    requires of { IsOf pass.now lead.now }
    requires shape { IsShaped K.WORDS V.WORDS (lead_heads lead.now) (lead_layout lead.now) (lead_key lead.now) }
    ensures start { result ≡ start_at (lead_key lead.now) key.now }
{
    let buckets = in_buckets::<K, V>(pass.layout());
    let place = start_of_words::<K>(key, buckets.ranks * buckets.per_rank);
    Start {
        place,
        home: place / buckets.per_rank,
    }
}

/// The same, and its first control word is brought near.
#[inline(always)]
pub(crate) fn start_near<K: Object, V: Object, L: MergeLaw<V>, P: Promise>(
    pass: &Pass<Map<K, V, L>, P>,
    lead: &Lead<Map<K, V, L>>,
    key: &[u64; 8],
) -> Start
    requires key { Fits K.WORDS }
    requires of { IsOf pass.now lead.now }
    requires shape { IsShaped K.WORDS V.WORDS (lead_heads lead.now) (lead_layout lead.now) (lead_key lead.now) }
    ensures start { result ≡ start_at (lead_key lead.now) key.now }
{
    let start = start_of(pass, lead, key);
    let walk = walk_from(pass, lead, key, start);
    lead.prefetch(Spot::word_of(walk.first.at, 0));
    start
}

/// The walk from a start on.
#[inline(always)]
pub(crate) fn walk_from<K: Object, V: Object, L: MergeLaw<V>, P: Promise>(
    pass: &Pass<Map<K, V, L>, P>,
    lead: &Lead<Map<K, V, L>>,
    key: &[u64; 8],
    start: Start,
) -> Walk
    requires key { Fits K.WORDS }
    requires of { IsOf pass.now lead.now }
    requires shape { IsShaped K.WORDS V.WORDS (lead_heads lead.now) (lead_layout lead.now) (lead_key lead.now) }
    requires start { start ≡ start_at (lead_key lead.now) key.now }
    ensures places { result.places ≡ places (lead_key lead.now) }
    ensures end { result.end ≡ segment.places (lead_layout lead.now) }
    ensures home { result.home ≡ map.home (lead_key lead.now) key.now }
    ensures first { result.first.number ≡ 0 }
    ensures at { IsBucketAt (size K.WORDS V.WORDS) (lead_layout lead.now) result.first.at (path (lead_key lead.now) key.now 0) }
{
    let layout = pass.layout();
    let buckets = in_buckets::<K, V>(layout);
    Walk {
        places: buckets.ranks * buckets.per_rank,
        end: layout.ranks * layout.per_rank,
        home: start.home,
        first: Bucket {
            at: bucket_at::<K, V>(start.place),
            number: 0,
        },
    }
}

// The bucket after one, where there are so many words: after the last comes the first.
#[inline(always)]
pub(crate) fn next_bucket<K: Object, V: Object>(at: u32, end: u32) -> u32
    requires at { at + size K.WORDS V.WORDS ≤ end }
    requires few { end ≤ 2 ^ 27 }
    ensures next { result ≡ after at end (size K.WORDS V.WORDS) }
{
    let next = at + bucket_words::<K, V>();
    if next < end { next } else { 0 }
}
