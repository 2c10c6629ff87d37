//! A merge of a value into that of a key whose home is the pass's rank: the walk of an insertion, and where a bucket has
//! the key, gets of the old value's words before the puts.

ghost use Rattle.std.specs.Prelude.{◌≡◌, ◌+◌, ◌*◌, ◌≤◌, [], ◌∷◌};
ghost use Rattle.bcl_words.specs.Words.{Fits};
ghost use Rattle.bcl_words.specs.Merges.{AnswersLaw};
ghost use Rattle.bcl_event.specs.History.{event};
ghost use Rattle.bcl_event.specs.declared.map.MapCall.TheVariants.{Merge};
ghost use Rattle.bcl_phase.specs.Parts.{lead_key, lead_layout, lead_heads, pass_view, IsOf};
ghost use Rattle.bcl_phase.specs.Stands.{Still};
ghost use Rattle.bcl_map.specs.Map.{places, home, path, size, IsShaped};
ghost use Rattle.bcl_map.specs.Finds.{reading, value_of};
ghost use Rattle.bcl_map.specs.Calls.{Stands, IsBucketAt, start_at};
ghost use Rattle.bcl_map.specs.Costs.{taken};
ghost use Rattle.bcl_map.specs.Reaches.{inserted, words_put_by, most_atomics};

use crate::inserted::Inserted;
use crate::map::Map;
use crate::place::{Place, place_of};
use crate::put::replace;
use crate::storing::Merging;
use crate::walk::Start;
use bcl_merge::Merger;
use bcl_phase::{Lead, Own, Pass};
use bcl_segment::Spot;
use bcl_words::{MergeLaw, Object};
use std::marker::{Brand, Sync};

/// The value of a bucket that has the key, which no other rank changes: a get of each of its words. They are no call.
#[inline]
fn old_value<K: Object, V: Object, L: MergeLaw<V>>(
    pass: &mut Pass<Map<K, V, L>, Own>,
    lead: &Lead<Map<K, V, L>>,
    at: u32,
    key: &[u64; 8],
    number: u32,
) -> V
    requires key { Fits K.WORDS }
    requires value { Fits V.WORDS }
    requires of { IsOf pass.old lead.now }
    requires shape { IsShaped K.WORDS V.WORDS (lead_heads lead.now) (lead_layout lead.now) (lead_key lead.now) }
    requires at { IsBucketAt (size K.WORDS V.WORDS) (lead_layout lead.now) at (path (lead_key lead.now) key.now number) }
    requires mine { home (lead_key lead.now) key.now ≡ (pass_view pass.old).rank }
    requires reads { (pass_view pass.old).note.claims ≡ reading key.now number (value_of (pass_view pass.old).note.claims) }
    ensures words { V.words result ≡ value_of (pass_view pass.old).note.claims }
    ensures still { Still (pass_view pass.old) (pass_view pass.new) }
    ensures reads { (pass_view pass.new).note.claims ≡ (pass_view pass.old).note.claims }
    ensures of { IsOf pass.new lead.now }
    ensures gets { (pass_view pass.new).gets ≡ (pass_view pass.old).gets + V.WORDS }
    ensures puts { (pass_view pass.new).puts ≡ (pass_view pass.old).puts }
    ensures atomics { (pass_view pass.new).atomics ≡ (pass_view pass.old).atomics }
{
    let mut words = [0u64; 8];
    for j in 0..V::WORDS {
        words[j] = pass.get::<Brand, ([u64; 8], u32, usize)>(
            lead,
            Spot::word_of(at, 1 + K::WORDS + j),
            &(*key, number, j),
        );
    }
    let Some(value) = V::from_words(&words) else {
        unreachable!()
    };
    value
}

/// Merges a value into that of a key, whose home is the pass's rank and whose path begins at this start.
#[inline]
pub(crate) fn merge_key<K: Object, V: Object, L: MergeLaw<V>, F: Fn(V, V) -> V + Sync>(
    pass: &mut Pass<Map<K, V, L>, Own>,
    lead: &Lead<Map<K, V, L>>,
    start: Start,
    key: &K,
    value: &V,
    merger: &Merger<V, L, F>,
) -> Inserted
    requires key { Fits K.WORDS }
    requires value { Fits V.WORDS }
    requires answers { AnswersLaw V.passes V.words L.op (F.pre merger.now) (F.post merger.now) }
    requires of { IsOf pass.old lead.now }
    requires shape { IsShaped K.WORDS V.WORDS (lead_heads lead.now) (lead_layout lead.now) (lead_key lead.now) }
    requires mine { home (lead_key lead.now) (K.words key.now) ≡ (pass_view pass.old).rank }
    requires start { start ≡ start_at (lead_key lead.now) (K.words key.now) }
    requires rest { (pass_view pass.old).note.claims ≡ [] }
    ensures stands { Stands L.op (lead_key lead.now) (pass_view pass.old) (pass_view pass.new) (event (pass_view pass.old).rank (Merge (K.words key.now) (V.words value.now)) (inserted result) ∷ []) }
    ensures rest { (pass_view pass.new).note.claims ≡ [] }
    ensures of { IsOf pass.new lead.now }
    ensures gets { (pass_view pass.new).gets ≤ (pass_view pass.old).gets + (places (lead_key lead.now) * (1 + K.WORDS) + V.WORDS + taken (pass_view pass.old) (pass_view pass.new)) }
    ensures puts { (pass_view pass.new).puts ≡ (pass_view pass.old).puts + words_put_by K.WORDS V.WORDS result }
    ensures atomics { (pass_view pass.new).atomics ≤ (pass_view pass.old).atomics + most_atomics (taken (pass_view pass.old) (pass_view pass.new)) result }
{
    let words = key.to_words();
    let value_words = value.to_words();
    let call = Merging { value: value_words };
    match place_of(pass, lead, &call, &words, start) {
        Place::New => Inserted::New,
        Place::Here(bucket) => {
            let old = old_value(pass, lead, bucket.at, &words, bucket.number);
            let merged = merger.apply(old, *value).to_words();
            replace(pass, lead, bucket.at, &call, &words, &merged, bucket.number);
            Inserted::Replaced
        }
        Place::Full => Inserted::Full,
    }
}
