//! The walk of a call along the path of a key, from bucket to bucket, to where it ends: a bucket that is free, one that
//! has the key, or behind the last. Gets alone, whatever the call is.

ghost use Rattle.std.specs.Prelude.{◌≡◌, ◌+◌, ◌*◌, ◌<◌, ◌≤◌};
ghost use Rattle.bcl_words.specs.Words.{Fits, IsWords};
ghost use Rattle.bcl_segment.specs.Places as segment;
ghost use Rattle.bcl_phase.specs.Parts.{lead_key, lead_layout, lead_heads, pass_view, IsOf};
ghost use Rattle.bcl_map.specs.Map as map;
ghost use Rattle.bcl_map.specs.Map.{places, path, size, IsShaped};
ghost use Rattle.bcl_map.specs.Calls.{IsBucketAt};
ghost use Rattle.bcl_map.specs.Reaches.{HasPassed, Reached, most_gets, looked_at};

use crate::look::{Look, look_at};
use crate::map::Map;
use crate::walk::{Bucket, Walk, next_bucket};
use crate::walking::Walking;
use bcl_phase::{Lead, Pass, Promise};
use bcl_words::{MergeLaw, Object};

/// Where a walk ends.
pub(crate) enum Reach {
    /// A bucket is free.
    Free(Bucket),
    /// A bucket has the key.
    Here(Bucket),
    /// Each bucket has another key.
    Past,
}

/// Walks along the path of a key, from the bucket `from` on: those before it have other keys.
#[inline]
pub(crate) fn reach_from<K: Object, V: Object, L: MergeLaw<V>, P: Promise, C: Walking>(
    pass: &mut Pass<Map<K, V, L>, P>,
    lead: &Lead<Map<K, V, L>>,
    call: &C,
    key: &[u64; 8],
    walk: Walk,
    from: Bucket,
) -> Reach
    requires key { Fits K.WORDS }
    requires words { IsWords K.WORDS key.now }
    requires of { IsOf pass.old lead.now }
    requires shape { IsShaped K.WORDS V.WORDS (lead_heads lead.now) (lead_layout lead.now) (lead_key lead.now) }
    requires may { C.may (lead_key lead.now) P.CODE (pass_view pass.old).rank key.now }
    requires places { walk.places ≡ places (lead_key lead.now) }
    requires end { walk.end ≡ segment.places (lead_layout lead.now) }
    requires home { walk.home ≡ map.home (lead_key lead.now) key.now }
    requires at { IsBucketAt (size K.WORDS V.WORDS) (lead_layout lead.now) from.at (path (lead_key lead.now) key.now from.number) }
    requires number { from.number < places (lead_key lead.now) }
    requires heading { HasPassed key.now from.number (pass_view pass.old) }
    ensures reaches { Reached L.op (lead_key lead.now) (size K.WORDS V.WORDS) (lead_layout lead.now) (C.walker call.now key.now) key.now from.number (pass_view pass.old) (pass_view pass.new) result }
    ensures of { IsOf pass.new lead.now }
    ensures gets { (pass_view pass.new).gets + from.number * (1 + K.WORDS) ≤ (pass_view pass.old).gets + most_gets K.WORDS (places (lead_key lead.now)) result }
    ensures each { (pass_view pass.old).gets + looked_at (places (lead_key lead.now)) result ≤ (pass_view pass.new).gets + from.number }
    ensures puts { (pass_view pass.new).puts ≡ (pass_view pass.old).puts }
    ensures atomics { (pass_view pass.new).atomics ≡ (pass_view pass.old).atomics }
{
    let mut at = from.at;
    for number in from.number..walk.places {
        match look_at(pass, lead, at, call, key, number, walk.home) {
            Look::Free => return Reach::Free(Bucket { at, number }),
            Look::Here => return Reach::Here(Bucket { at, number }),
            Look::Passed => at = next_bucket::<K, V>(at, walk.end),
        }
    }
    Reach::Past
}
