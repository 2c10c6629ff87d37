//! The calls under Own: of keys whose home is the pass's rank.

ghost use Rattle.std.specs.Prelude.{◌≡◌, ◌+◌, ◌*◌, ◌≤◌, ◌<◌, [], ◌∷◌};
ghost use Rattle.bcl_words.specs.Words.{Fits};
ghost use Rattle.bcl_words.specs.Merges.{AnswersLaw};
ghost use Rattle.bcl_event.specs.History.{event};
ghost use Rattle.bcl_event.specs.declared.map.MapCall.TheVariants.{Find, Insert, Merge};
ghost use Rattle.bcl_phase.specs.Parts as phase;
ghost use Rattle.bcl_map.specs.Map.{places, home, IsShaped};
ghost use Rattle.bcl_map.specs.Calls.{Stands, IsMine, start_at, reply};
ghost use Rattle.bcl_map.specs.Costs.{taken};
ghost use Rattle.bcl_map.specs.Reaches.{inserted, words_put_by, most_atomics};
ghost use Rattle.bcl_map.specs.Parts.{lead_key, pass_view, IsOf};

use crate::find::find_key;
use crate::inserted::Inserted;
use crate::lead::MapLead;
use crate::map::Map;
use crate::merge::merge_key;
use crate::pass::MapPass;
use crate::place::{Place, place_of};
use crate::put::replace;
use crate::storing::Inserting;
use crate::walk::{Start, start_of};
use bcl_merge::Merger;
use bcl_phase::{Lead, Own, Pass};
use bcl_words::{MergeLaw, Object};
use std::marker::Sync;

/// Stores a value for a key, whose home is the pass's rank.
#[inline]
fn insert_key<K: Object, V: Object, L: MergeLaw<V>>(
    pass: &mut Pass<Map<K, V, L>, Own>,
    lead: &Lead<Map<K, V, L>>,
    key: &K,
    value: &V,
) -> Inserted
    requires key { Fits K.WORDS }
    requires value { Fits V.WORDS }
    requires of { phase.IsOf pass.old lead.now }
    requires shape { IsShaped K.WORDS V.WORDS (phase.lead_heads lead.now) (phase.lead_layout lead.now) (phase.lead_key lead.now) }
    requires mine { home (phase.lead_key lead.now) (K.words key.now) ≡ (phase.pass_view pass.old).rank }
    requires rest { (phase.pass_view pass.old).note.claims ≡ [] }
    ensures stands { Stands L.op (phase.lead_key lead.now) (phase.pass_view pass.old) (phase.pass_view pass.new) (event (phase.pass_view pass.old).rank (Insert (K.words key.now) (V.words value.now)) (inserted result) ∷ []) }
    ensures rest { (phase.pass_view pass.new).note.claims ≡ [] }
    ensures of { phase.IsOf pass.new lead.now }
    ensures gets { (phase.pass_view pass.new).gets ≤ (phase.pass_view pass.old).gets + (places (phase.lead_key lead.now) * (1 + K.WORDS) + V.WORDS + taken (phase.pass_view pass.old) (phase.pass_view pass.new)) }
    ensures puts { (phase.pass_view pass.new).puts ≡ (phase.pass_view pass.old).puts + words_put_by K.WORDS V.WORDS result }
    ensures atomics { (phase.pass_view pass.new).atomics ≤ (phase.pass_view pass.old).atomics + most_atomics (taken (phase.pass_view pass.old) (phase.pass_view pass.new)) result }
{
    let words = key.to_words();
    let value_words = value.to_words();
    let call = Inserting { value: value_words };
    let start = start_of(pass, lead, &words);
    match place_of(pass, lead, &call, &words, start) {
        Place::New => Inserted::New,
        Place::Here(bucket) => {
            replace(
                pass,
                lead,
                bucket.at,
                &call,
                &words,
                &value_words,
                bucket.number,
            );
            Inserted::Replaced
        }
        Place::Full => Inserted::Full,
    }
}

/// One more, where a pair is new.
#[inline]
fn counted(stored: usize, inserted: Inserted) -> usize {
    match inserted {
        Inserted::New => stored.wrapping_add(1),
        Inserted::Replaced | Inserted::Full => stored,
    }
}

impl<K: Object, V: Object, L: MergeLaw<V>> MapPass<Own, K, V, L> {
    /// The value of a key. Gets alone: of the control words along the key's path, of the words of keys of the same home,
    /// and of the value's words. The find takes place at the last. It never refuses.
    ///
    /// Condition: the key's home is this rank, as `is_mine` tells.
    #[inline]
    pub fn find(&mut self, lead: &MapLead<K, V, L>, key: &K) -> Option<V>
        requires of { IsOf self.old lead.now }
        requires mine { IsMine (pass_view self.old) (K.words key.now) }
        ensures stands { Stands L.op (lead_key lead.now) (pass_view self.old) (pass_view self.new) (event (pass_view self.old).rank (Find (K.words key.now)) (reply V.words result) ∷ []) }
        ensures of { IsOf self.new lead.now }
        ensures gets { (pass_view self.new).gets ≤ (pass_view self.old).gets + (places (lead_key lead.now) * (1 + K.WORDS) + V.WORDS) }
        ensures puts { (pass_view self.new).puts ≡ (pass_view self.old).puts }
        ensures atomics { (pass_view self.new).atomics ≡ (pass_view self.old).atomics }
    {
        let start = start_of(&self.pass.pass, &lead.lead, &key.to_words());
        find_key(&mut self.pass.pass, &lead.lead, start, key)
    }

    /// Stores a value for a key, in the place of its old one if it has one. It refuses for want of a bucket alone, where
    /// each is in use by another key: `Full`.
    ///
    /// A new key takes place at the exchange by which it takes a free bucket. It makes at most one exchange more than
    /// other ranks inserted keys since this pass had last seen the history, who may have taken buckets that it met free.
    /// `Full` makes at most as many, and takes place at the last get of the key's path. A key that is there makes none,
    /// and takes place at the first put of its new value.
    ///
    /// Condition: the key's home is this rank, as `is_mine` tells.
    #[inline]
    pub fn insert(&mut self, lead: &MapLead<K, V, L>, key: &K, value: &V) -> Inserted
        requires of { IsOf self.old lead.now }
        requires mine { IsMine (pass_view self.old) (K.words key.now) }
        ensures stands { Stands L.op (lead_key lead.now) (pass_view self.old) (pass_view self.new) (event (pass_view self.old).rank (Insert (K.words key.now) (V.words value.now)) (inserted result) ∷ []) }
        ensures of { IsOf self.new lead.now }
        ensures gets { (pass_view self.new).gets ≤ (pass_view self.old).gets + (places (lead_key lead.now) * (1 + K.WORDS) + V.WORDS + taken (pass_view self.old) (pass_view self.new)) }
        ensures puts { (pass_view self.new).puts ≡ (pass_view self.old).puts + words_put_by K.WORDS V.WORDS result }
        ensures atomics { (pass_view self.new).atomics ≤ (pass_view self.old).atomics + most_atomics (taken (pass_view self.old) (pass_view self.new)) result }
    {
        let inserted = insert_key(&mut self.pass.pass, &lead.lead, key, value);
        self.stored = counted(self.stored, inserted);
        inserted
    }

    /// Merges a value into that of a key: the key has then what the merger makes of its old value and this one. A key that
    /// isn't there gets the value, as by `insert`: `New`. It refuses for want of a bucket alone, where each is in use by
    /// another key: `Full`.
    ///
    /// A new key and `Full` take place as those of `insert`, and cost the same. A key that is there makes no exchange: it
    /// gets the words of its old value and puts those of the merged one, and takes place at the first put. The gets before
    /// it are no call, and no other rank changes the value between them and the puts.
    ///
    /// Condition: the key's home is this rank, as `is_mine` tells, and the merger's function answers the map's law L.
    #[inline]
    pub fn merge<F: Fn(V, V) -> V + Sync>(
        &mut self,
        lead: &MapLead<K, V, L>,
        key: &K,
        value: &V,
        merger: &Merger<V, L, F>,
    ) -> Inserted
        requires of { IsOf self.old lead.now }
        requires mine { IsMine (pass_view self.old) (K.words key.now) }
        requires answers { AnswersLaw V.passes V.words L.op (F.pre merger.now) (F.post merger.now) }
        ensures stands { Stands L.op (lead_key lead.now) (pass_view self.old) (pass_view self.new) (event (pass_view self.old).rank (Merge (K.words key.now) (V.words value.now)) (inserted result) ∷ []) }
        ensures of { IsOf self.new lead.now }
        ensures gets { (pass_view self.new).gets ≤ (pass_view self.old).gets + (places (lead_key lead.now) * (1 + K.WORDS) + V.WORDS + taken (pass_view self.old) (pass_view self.new)) }
        ensures puts { (pass_view self.new).puts ≡ (pass_view self.old).puts + words_put_by K.WORDS V.WORDS result }
        ensures atomics { (pass_view self.new).atomics ≤ (pass_view self.old).atomics + most_atomics (taken (pass_view self.old) (pass_view self.new)) result }
    {
        let start = start_of(&self.pass.pass, &lead.lead, &key.to_words());
        self.merge_from(lead, start, key, value, merger)
    }

    /// The same, of a key whose start is known: it isn't hashed again.
    ///
    /// Condition: as of `merge`, and the start is that of the key, as `start` answers it.
    #[inline]
    pub fn merge_from<F: Fn(V, V) -> V + Sync>(
        &mut self,
        lead: &MapLead<K, V, L>,
        start: Start,
        key: &K,
        value: &V,
        merger: &Merger<V, L, F>,
    ) -> Inserted
        requires of { IsOf self.old lead.now }
        requires mine { IsMine (pass_view self.old) (K.words key.now) }
        requires start { start ≡ start_at (lead_key lead.now) (K.words key.now) }
        requires answers { AnswersLaw V.passes V.words L.op (F.pre merger.now) (F.post merger.now) }
        ensures stands { Stands L.op (lead_key lead.now) (pass_view self.old) (pass_view self.new) (event (pass_view self.old).rank (Merge (K.words key.now) (V.words value.now)) (inserted result) ∷ []) }
        ensures of { IsOf self.new lead.now }
        ensures gets { (pass_view self.new).gets ≤ (pass_view self.old).gets + (places (lead_key lead.now) * (1 + K.WORDS) + V.WORDS + taken (pass_view self.old) (pass_view self.new)) }
        ensures puts { (pass_view self.new).puts ≡ (pass_view self.old).puts + words_put_by K.WORDS V.WORDS result }
        ensures atomics { (pass_view self.new).atomics ≤ (pass_view self.old).atomics + most_atomics (taken (pass_view self.old) (pass_view self.new)) result }
    {
        let inserted = merge_key(&mut self.pass.pass, &lead.lead, start, key, value, merger);
        self.stored = counted(self.stored, inserted);
        inserted
    }
}
