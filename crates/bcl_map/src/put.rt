//! The puts of a bucket that a rank writes: of a new pair, or of a new value.

ghost use Rattle.std.specs.Prelude.{◌≡◌, ◌+◌, ◌<◌, [], true, Some};
ghost use Rattle.bcl_words.specs.Words.{Fits, IsWords};
ghost use Rattle.bcl_event.specs.Map.{Pairs, value_at, with_value};
ghost use Rattle.bcl_event.specs.declared.map.MapReply.TheVariants.{Replaced};
ghost use Rattle.bcl_phase.specs.Parts.{lead_key, lead_layout, lead_heads, pass_view, IsOf};
ghost use Rattle.bcl_phase.specs.Stands.{Still};
ghost use Rattle.bcl_map.specs.declared.note.Before.TheVariants.{Nothing};
ghost use Rattle.bcl_map.specs.Map as map;
ghost use Rattle.bcl_map.specs.Map.{path, size, next, IsShaped};
ghost use Rattle.bcl_map.specs.Finds.{reading, value_of};
ghost use Rattle.bcl_map.specs.Calls.{IsBucketAt};
ghost use Rattle.bcl_map.specs.Inserts.{writing, old_of};
ghost use Rattle.bcl_map.specs.Reaches.{Ends};

use crate::map::Map;
use crate::storing::Storing;
use bcl_phase::{Lead, Own, Pass};
use bcl_segment::Spot;
use bcl_words::{MergeLaw, Object};
use std::marker::Brand;

/// Puts the words of the value from the word `first` on: the last ones of a bucket that this rank writes.
#[inline]
fn put_value<K: Object, V: Object, L: MergeLaw<V>>(
    pass: &mut Pass<Map<K, V, L>, Own>,
    lead: &Lead<Map<K, V, L>>,
    at: u32,
    key: &[u64; 8],
    value: &[u64; 8],
    number: u32,
    first: usize,
)
    requires key { Fits K.WORDS }
    requires value { Fits V.WORDS }
    requires words { IsWords K.WORDS key.now }
    requires of { IsOf pass.old lead.now }
    requires shape { IsShaped K.WORDS V.WORDS (lead_heads lead.now) (lead_layout lead.now) (lead_key lead.now) }
    requires at { IsBucketAt (size K.WORDS V.WORDS) (lead_layout lead.now) at (path (lead_key lead.now) key.now number) }
    requires first { first < V.WORDS }
    requires writes { (pass_view pass.old).note.claims ≡ writing (lead_key lead.now) key.now number (old_of (pass_view pass.old).note.claims) value.now (K.WORDS + first) }
    ensures still { Still (pass_view pass.old) (pass_view pass.new) }
    ensures rest { (pass_view pass.new).note.claims ≡ [] }
    ensures of { IsOf pass.new lead.now }
    ensures gets { (pass_view pass.new).gets ≡ (pass_view pass.old).gets }
    ensures puts { (pass_view pass.new).puts + first ≡ (pass_view pass.old).puts + V.WORDS }
    ensures atomics { (pass_view pass.new).atomics ≡ (pass_view pass.old).atomics }
{
    for j in first..V::WORDS {
        pass.put::<Brand, ([u64; 8], [u64; 8], u32, usize)>(
            lead,
            Spot::word_of(at, 1 + K::WORDS + j),
            value[j],
            &(*key, *value, number, K::WORDS + j),
        );
    }
}

/// Puts the words of the key and of the value into a bucket that this rank has taken.
#[inline]
pub(crate) fn put_pair<K: Object, V: Object, L: MergeLaw<V>>(
    pass: &mut Pass<Map<K, V, L>, Own>,
    lead: &Lead<Map<K, V, L>>,
    at: u32,
    key: &[u64; 8],
    value: &[u64; 8],
    number: u32,
)
    requires key { Fits K.WORDS }
    requires value { Fits V.WORDS }
    requires words { IsWords K.WORDS key.now }
    requires of { IsOf pass.old lead.now }
    requires shape { IsShaped K.WORDS V.WORDS (lead_heads lead.now) (lead_layout lead.now) (lead_key lead.now) }
    requires at { IsBucketAt (size K.WORDS V.WORDS) (lead_layout lead.now) at (path (lead_key lead.now) key.now number) }
    requires writes { (pass_view pass.old).note.claims ≡ writing (lead_key lead.now) key.now number Nothing value.now 0 }
    ensures still { Still (pass_view pass.old) (pass_view pass.new) }
    ensures rest { (pass_view pass.new).note.claims ≡ [] }
    ensures of { IsOf pass.new lead.now }
    ensures gets { (pass_view pass.new).gets ≡ (pass_view pass.old).gets }
    ensures puts { (pass_view pass.new).puts ≡ (pass_view pass.old).puts + (K.WORDS + V.WORDS) }
    ensures atomics { (pass_view pass.new).atomics ≡ (pass_view pass.old).atomics }
{
    for j in 0..K::WORDS {
        pass.put::<Brand, ([u64; 8], [u64; 8], u32, usize)>(
            lead,
            Spot::word_of(at, 1 + j),
            key[j],
            &(*key, *value, number, j),
        );
    }
    put_value(pass, lead, at, key, value, number, 0);
}

/// Puts the words `put` of a value into a bucket that has the key. They are what the call makes of the old value, and it
/// takes place at the first put.
#[inline]
pub(crate) fn replace<K: Object, V: Object, L: MergeLaw<V>, C: Storing>(
    pass: &mut Pass<Map<K, V, L>, Own>,
    lead: &Lead<Map<K, V, L>>,
    at: u32,
    call: &C,
    key: &[u64; 8],
    put: &[u64; 8],
    number: u32,
)
    requires key { Fits K.WORDS }
    requires value { Fits V.WORDS }
    requires words { IsWords K.WORDS key.now × (K.passes key.now ≡ true) }
    requires put_words { IsWords V.WORDS put.now × (V.passes put.now ≡ true) }
    requires stores { (t : Pairs) → value_at key.now t ≡ Some (value_of (pass_view pass.old).note.claims) → next L.op (lead_key lead.now) t (C.walker call.now key.now).call ≡ (Replaced, with_value key.now put.now t) }
    requires of { IsOf pass.old lead.now }
    requires shape { IsShaped K.WORDS V.WORDS (lead_heads lead.now) (lead_layout lead.now) (lead_key lead.now) }
    requires at { IsBucketAt (size K.WORDS V.WORDS) (lead_layout lead.now) at (path (lead_key lead.now) key.now number) }
    requires mine { map.home (lead_key lead.now) key.now ≡ (pass_view pass.old).rank }
    requires reads { (pass_view pass.old).note.claims ≡ reading key.now number (value_of (pass_view pass.old).note.claims) }
    ensures ends { Ends L.op (lead_key lead.now) (C.walker call.now key.now).call Replaced (pass_view pass.old) (pass_view pass.new) }
    ensures rest { (pass_view pass.new).note.claims ≡ [] }
    ensures of { IsOf pass.new lead.now }
    ensures gets { (pass_view pass.new).gets ≡ (pass_view pass.old).gets }
    ensures puts { (pass_view pass.new).puts ≡ (pass_view pass.old).puts + V.WORDS }
    ensures atomics { (pass_view pass.new).atomics ≡ (pass_view pass.old).atomics }
{
    pass.put::<Brand, (C, [u64; 8], [u64; 8], u32)>(
        lead,
        Spot::word_of(at, 1 + K::WORDS),
        put[0],
        &(*call, *key, *put, number),
    );
    if V::WORDS > 1 {
        put_value(pass, lead, at, key, put, number, 1);
    }
}
