//! A find: the walk along the path of its key, and where a bucket has the key, gets of the words of its value.
//!
//! No other rank changes the value of the key meanwhile, so gets alone find it.

ghost use Rattle.std.specs.Prelude.{◌≡◌, ◌+◌, ◌*◌, ◌≤◌, ◌<◌, [], ◌∷◌};
ghost use Rattle.bcl_words.specs.Words.{Fits};
ghost use Rattle.bcl_event.specs.History.{event};
ghost use Rattle.bcl_event.specs.declared.map.MapCall.TheVariants.{Find as a_find};
ghost use Rattle.bcl_event.specs.declared.map.MapReply.TheVariants.{Value};
ghost use Rattle.bcl_phase.specs.Parts as phase;
ghost use Rattle.bcl_map.specs.Map.{places, path, size, IsShaped};
ghost use Rattle.bcl_map.specs.Finds.{MaySee, reading, value_of};
ghost use Rattle.bcl_map.specs.Calls.{Stands, IsBucketAt, start_at, reply};
ghost use Rattle.bcl_map.specs.Parts.{lead_key, pass_view, IsOf};

use crate::lead::MapLead;
use crate::map::Map;
use crate::pass::MapPass;
use crate::reach::{Reach, reach_from};
use crate::walk::{Start, start_of, walk_from};
use crate::walking::Finding;
use bcl_phase::{Find, Lead, Pass, Promise};
use bcl_segment::Spot;
use bcl_words::{MergeLaw, Object};
use std::marker::Brand;

/// The value of a bucket that has the key. A get of each of its words: the find takes place at the last.
#[inline]
fn value<K: Object, V: Object, L: MergeLaw<V>, P: Promise>(
    pass: &mut Pass<Map<K, V, L>, P>,
    lead: &Lead<Map<K, V, L>>,
    at: u32,
    key: &[u64; 8],
    number: u32,
) -> V
    requires key { Fits K.WORDS }
    requires value { Fits V.WORDS }
    requires of { phase.IsOf pass.old lead.now }
    requires shape { IsShaped K.WORDS V.WORDS (phase.lead_heads lead.now) (phase.lead_layout lead.now) (phase.lead_key lead.now) }
    requires at { IsBucketAt (size K.WORDS V.WORDS) (phase.lead_layout lead.now) at (path (phase.lead_key lead.now) key.now number) }
    requires see { MaySee (phase.lead_key lead.now) P.CODE (phase.pass_view pass.old).rank key.now }
    requires reads { (phase.pass_view pass.old).note.claims ≡ reading key.now number (value_of (phase.pass_view pass.old).note.claims) }
    ensures stands { Stands L.op (phase.lead_key lead.now) (phase.pass_view pass.old) (phase.pass_view pass.new) (event (phase.pass_view pass.old).rank (a_find key.now) (Value (V.words result)) ∷ []) }
    ensures rest { (phase.pass_view pass.new).note.claims ≡ [] }
    ensures of { phase.IsOf pass.new lead.now }
    ensures gets { (phase.pass_view pass.new).gets ≡ (phase.pass_view pass.old).gets + V.WORDS }
    ensures puts { (phase.pass_view pass.new).puts ≡ (phase.pass_view pass.old).puts }
    ensures atomics { (phase.pass_view pass.new).atomics ≡ (phase.pass_view pass.old).atomics }
{
    let mut words = [0u64; 8];
    let first = 1 + K::WORDS;
    let last = V::WORDS - 1;
    for j in 0..last {
        words[j] = pass.get::<Brand, ([u64; 8], u32, usize)>(
            lead,
            Spot::word_of(at, first + j),
            &(*key, number, j),
        );
    }
    words[last] = pass.get::<Brand, ([u64; 8], u32, usize)>(
        lead,
        Spot::word_of(at, first + last),
        &(*key, number, last),
    );
    let Some(value) = V::from_words(&words) else {
        unreachable!()
    };
    value
}

/// The value of a key, which no other rank changes. Gets alone; the find takes place at the last.
#[inline]
pub(crate) fn find_key<K: Object, V: Object, L: MergeLaw<V>, P: Promise>(
    pass: &mut Pass<Map<K, V, L>, P>,
    lead: &Lead<Map<K, V, L>>,
    start: Start,
    key: &K,
) -> Option<V>
    requires key { Fits K.WORDS }
    requires value { Fits V.WORDS }
    requires of { phase.IsOf pass.old lead.now }
    requires shape { IsShaped K.WORDS V.WORDS (phase.lead_heads lead.now) (phase.lead_layout lead.now) (phase.lead_key lead.now) }
    requires see { MaySee (phase.lead_key lead.now) P.CODE (phase.pass_view pass.old).rank (K.words key.now) }
    requires start { start ≡ start_at (phase.lead_key lead.now) (K.words key.now) }
    requires rest { (phase.pass_view pass.old).note.claims ≡ [] }
    ensures stands { Stands L.op (phase.lead_key lead.now) (phase.pass_view pass.old) (phase.pass_view pass.new) (event (phase.pass_view pass.old).rank (a_find (K.words key.now)) (reply V.words result) ∷ []) }
    ensures rest { (phase.pass_view pass.new).note.claims ≡ [] }
    ensures of { phase.IsOf pass.new lead.now }
    ensures gets { (phase.pass_view pass.new).gets ≤ (phase.pass_view pass.old).gets + (places (phase.lead_key lead.now) * (1 + K.WORDS) + V.WORDS) }
    ensures puts { (phase.pass_view pass.new).puts ≡ (phase.pass_view pass.old).puts }
    ensures atomics { (phase.pass_view pass.new).atomics ≡ (phase.pass_view pass.old).atomics }
{
    let words = key.to_words();
    let walk = walk_from(pass, lead, &words, start);
    match reach_from(pass, lead, &Finding, &words, walk, walk.first) {
        Reach::Here(bucket) => Some(value(pass, lead, bucket.at, &words, bucket.number)),
        Reach::Free(_) => None,
        Reach::Past => None,
    }
}

impl<K: Object, V: Object, L: MergeLaw<V>> MapPass<Find, K, V, L> {
    /// The value of a key. Gets alone: of the control words along the key's path, of the words of keys of the same home,
    /// and of the value's words. The find takes place at the last. It never refuses.
    #[inline]
    pub fn find(&mut self, lead: &MapLead<K, V, L>, key: &K) -> Option<V>
        requires of { IsOf self.old lead.now }
        ensures stands { Stands L.op (lead_key lead.now) (pass_view self.old) (pass_view self.new) (event (pass_view self.old).rank (a_find (K.words key.now)) (reply V.words result) ∷ []) }
        ensures of { IsOf self.new lead.now }
        ensures gets { (pass_view self.new).gets ≤ (pass_view self.old).gets + (places (lead_key lead.now) * (1 + K.WORDS) + V.WORDS) }
        ensures puts { (pass_view self.new).puts ≡ (pass_view self.old).puts }
        ensures atomics { (pass_view self.new).atomics ≡ (pass_view self.old).atomics }
    {
        let start = start_of(&self.pass.pass, &lead.lead, &key.to_words());
        self.find_from(lead, start, key)
    }

    /// The same, of a key whose start is known: it isn't hashed again.
    ///
    /// Condition: the start is that of the key, as `start` answers it.
    #[inline]
    pub fn find_from(&mut self, lead: &MapLead<K, V, L>, start: Start, key: &K) -> Option<V>
        requires of { IsOf self.old lead.now }
        requires start { start ≡ start_at (lead_key lead.now) (K.words key.now) }
        ensures stands { Stands L.op (lead_key lead.now) (pass_view self.old) (pass_view self.new) (event (pass_view self.old).rank (a_find (K.words key.now)) (reply V.words result) ∷ []) }
        ensures of { IsOf self.new lead.now }
        ensures gets { (pass_view self.new).gets ≤ (pass_view self.old).gets + (places (lead_key lead.now) * (1 + K.WORDS) + V.WORDS) }
        ensures puts { (pass_view self.new).puts ≡ (pass_view self.old).puts }
        ensures atomics { (pass_view self.new).atomics ≡ (pass_view self.old).atomics }
    {
        find_key(&mut self.pass.pass, &lead.lead, start, key)
    }
}
