//! The place of a key whose home is the pass's rank, in a call that stores a value: one exchange at each free bucket that
//! its walk meets, until one is won, or until a bucket has the key.
//!
//! No other rank stores a value for the key meanwhile. Another rank may take a bucket of its path that was met free.

ghost use Rattle.std.specs.Prelude.{◌≡◌, ◌≢◌, ◌+◌, ◌*◌, ◌<◌, ◌≤◌, [], true, false};
ghost use Rattle.bcl_words.specs.Words.{Fits, IsWords};
ghost use Rattle.bcl_event.specs.declared.map.MapReply.TheVariants.{New};
ghost use Rattle.bcl_phase.specs.Parts.{lead_key, lead_layout, lead_heads, pass_view, IsOf};
ghost use Rattle.bcl_map.specs.declared.note.Before.TheVariants.{Nothing};
ghost use Rattle.bcl_map.specs.declared.place.Place.TheVariants.{New as new_place};
ghost use Rattle.bcl_map.specs.Map as map;
ghost use Rattle.bcl_map.specs.Map.{places, path, size, IsShaped};
ghost use Rattle.bcl_map.specs.Calls.{IsBucketAt, start_at};
ghost use Rattle.bcl_map.specs.Inserts.{writing};
ghost use Rattle.bcl_map.specs.Reaches.{KnowsOwn, Comes, Ends, IsHeading, IsFacing, IsPlaceOf, places_seen, words_placed};

use crate::control::ready;
use crate::map::Map;
use crate::put::put_pair;
use crate::reach::{Reach, reach_from};
use crate::storing::Storing;
use crate::walk::{Bucket, Start, walk_from};
use bcl_phase::{Lead, Own, Pass};
use bcl_segment::Spot;
use bcl_words::{MergeLaw, Object};
use std::marker::Brand;

/// The exchange of a bucket that was met free, to READY: whether it was won.
#[inline]
fn take<K: Object, V: Object, L: MergeLaw<V>, C: Storing>(
    pass: &mut Pass<Map<K, V, L>, Own>,
    lead: &Lead<Map<K, V, L>>,
    at: u32,
    call: &C,
    key: &[u64; 8],
    number: u32,
    home: u32,
) -> bool
    requires key { Fits K.WORDS }
    requires value { Fits V.WORDS }
    requires words { IsWords K.WORDS key.now × (K.passes key.now ≡ true) }
    requires value_words { IsWords V.WORDS (C.value call.now) × (V.passes (C.value call.now) ≡ true) }
    requires of { IsOf pass.old lead.now }
    requires shape { IsShaped K.WORDS V.WORDS (lead_heads lead.now) (lead_layout lead.now) (lead_key lead.now) }
    requires at { IsBucketAt (size K.WORDS V.WORDS) (lead_layout lead.now) at (path (lead_key lead.now) key.now number) }
    requires number { number < places (lead_key lead.now) }
    requires mine { map.home (lead_key lead.now) key.now ≡ (pass_view pass.old).rank }
    requires home { home ≡ map.home (lead_key lead.now) key.now }
    requires facing { IsFacing L.op (lead_key lead.now) key.now number (pass_view pass.old) }
    requires own { KnowsOwn (pass_view pass.old) }
    ensures won { result ≡ true → Ends L.op (lead_key lead.now) (C.walker call.now key.now).call New (pass_view pass.old) (pass_view pass.new) × ((pass_view pass.new).note.claims ≡ writing (lead_key lead.now) key.now number Nothing (C.value call.now) 0) }
    ensures lost { result ≡ false → Comes L.op (lead_key lead.now) (pass_view pass.old) (pass_view pass.new) × IsHeading key.now (number + 1) (pass_view pass.new) }
    ensures of { IsOf pass.new lead.now }
    ensures gets { (pass_view pass.new).gets ≡ (pass_view pass.old).gets }
    ensures puts { (pass_view pass.new).puts ≡ (pass_view pass.old).puts }
    ensures atomics { (pass_view pass.new).atomics ≡ (pass_view pass.old).atomics + 1 }
{
    pass.cas::<Brand, (C, [u64; 8], u32)>(
        lead,
        Spot::word_of(at, 0),
        0,
        ready(home),
        &(*call, *key, number),
    )
    .is_ok()
}

/// The place of a key, in a call that stores a value for it.
pub(crate) enum Place {
    /// A bucket was free, and has the pair now.
    New,
    /// A bucket has the key.
    Here(Bucket),
    /// Each bucket has another key.
    Full,
}

/// Walks along the path of a key to a bucket that has it, or that it gets with the value of the call. Behind each exchange
/// that it loses it looks at the same bucket again.
#[inline]
pub(crate) fn place_of<K: Object, V: Object, L: MergeLaw<V>, C: Storing>(
    pass: &mut Pass<Map<K, V, L>, Own>,
    lead: &Lead<Map<K, V, L>>,
    call: &C,
    key: &[u64; 8],
    start: Start,
) -> Place
    requires key { Fits K.WORDS }
    requires value { Fits V.WORDS }
    requires words { IsWords K.WORDS key.now × (K.passes key.now ≡ true) }
    requires value_words { IsWords V.WORDS (C.value call.now) × (V.passes (C.value call.now) ≡ true) }
    requires of { IsOf pass.old lead.now }
    requires shape { IsShaped K.WORDS V.WORDS (lead_heads lead.now) (lead_layout lead.now) (lead_key lead.now) }
    requires mine { map.home (lead_key lead.now) key.now ≡ (pass_view pass.old).rank }
    requires start { start ≡ start_at (lead_key lead.now) key.now }
    requires rest { (pass_view pass.old).note.claims ≡ [] }
    ensures placed { IsPlaceOf L.op (lead_key lead.now) (size K.WORDS V.WORDS) (lead_layout lead.now) (C.walker call.now key.now).call key.now (pass_view pass.old) (pass_view pass.new) result }
    ensures of { IsOf pass.new lead.now }
    ensures gets { (pass_view pass.new).gets + (pass_view pass.old).atomics ≤ (pass_view pass.old).gets + places (lead_key lead.now) * (1 + K.WORDS) + (pass_view pass.new).atomics }
    ensures again { result ≢ new_place → (pass_view pass.old).gets + places_seen (places (lead_key lead.now)) result + (pass_view pass.new).atomics ≤ (pass_view pass.new).gets + (pass_view pass.old).atomics }
    ensures puts { (pass_view pass.new).puts ≡ (pass_view pass.old).puts + words_placed K.WORDS V.WORDS result }
{
    let walk = walk_from(pass, lead, key, start);
    let mut from = walk.first;
    loop {
        match reach_from(pass, lead, call, key, walk, from) {
            Reach::Free(bucket) => {
                if take(pass, lead, bucket.at, call, key, bucket.number, walk.home) {
                    put_pair(pass, lead, bucket.at, key, call.value(), bucket.number);
                    return Place::New;
                }
                from = bucket;
            }
            Reach::Here(bucket) => return Place::Here(bucket),
            Reach::Past => return Place::Full,
        }
    }
}
