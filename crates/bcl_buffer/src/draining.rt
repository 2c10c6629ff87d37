//! The pairs of a buffer, merged into a map by the rank of their home.

ghost use Rattle.std.specs.Prelude.{◌≡◌, ◌≤◌, All, length, min};
ghost use Rattle.bcl_words.specs.Merges.{AnswersLaw};
ghost use Rattle.bcl_map.specs.Calls.{IsMine};
ghost use Rattle.bcl_map.specs.Parts.{lead_key, pass_view, IsOf};
ghost use Rattle.bcl_buffer.specs.declared.buffer.State.TheVariants.{Exchanged};
ghost use Rattle.bcl_buffer.specs.Drains.{IsFor, DrainsLane, Drains};
ghost use Rattle.bcl_buffer.specs.Batches.{AreStarts, DrainsFront};

use crate::buffer::{Buffer, State};
use crate::lane::Lane;
use bcl_map::{Inserted, MapLead, MapPass, Start};
use bcl_merge::Merger;
use bcl_phase::Own;
use bcl_words::{MergeLaw, Object, Pair};
use std::marker::Sync;

/// How far a drain came.
#[derive(Clone, Copy, Debug, PartialEq, Eq)]
pub enum Drained<K, V> {
    /// All pairs were merged.
    All,
    /// There was no bucket for this pair. It was taken out, and those behind it stay.
    Full(Pair<K, V>),
}

// Of how many pairs the buckets are brought near before the first of them is merged.
const BATCH: usize = 64;

// Where the paths of the first pairs of a lane begin, of a batch of them or fewer. Their buckets are brought near.
fn starts_of<K: Object, V: Object, L: MergeLaw<V>>(
    lane: &Lane<Pair<K, V>>,
    lead: &MapLead<K, V, L>,
    pass: &MapPass<Own, K, V, L>,
    starts: &mut [Start; BATCH],
) -> usize
    requires of { IsOf pass.now lead.now }
    ensures count { result ≡ min 64 (length lane.now) }
    ensures starts { AreStarts K.words (lead_key lead.now) result lane.now starts.new }
{
    let pairs = lane.front(BATCH);
    let count = pairs.len();
    for j in 0..count {
        starts[j] = pass.start(lead, &pairs[j].a);
    }
    count
}

// Merges the first pairs of a lane in their order, so many, whose paths begin at these starts.
fn drain_batch<K: Object, V: Object, L: MergeLaw<V>, F: Fn(V, V) -> V + Sync>(
    lane: &mut Lane<Pair<K, V>>,
    lead: &MapLead<K, V, L>,
    pass: &mut MapPass<Own, K, V, L>,
    merger: &Merger<V, L, F>,
    starts: &[Start; BATCH],
    count: usize,
) -> Drained<K, V>
    requires answers { AnswersLaw V.passes V.words L.op (F.pre merger.now) (F.post merger.now) }
    requires of { IsOf pass.old lead.now }
    requires mine { All (λ p. IsMine (pass_view pass.old) (K.words p.a)) lane.old }
    requires count { (count ≤ length lane.old) × (count ≤ 64) }
    requires starts { AreStarts K.words (lead_key lead.now) count lane.old starts.now }
    ensures drains { DrainsFront K.words V.words L.op (lead_key lead.now) count lane.old lane.new (pass_view pass.old) (pass_view pass.new) result }
    ensures of { IsOf pass.new lead.now }
{
    for j in 0..count {
        let Some(pair) = lane.take() else {
            unreachable!()
        };
        if pass.merge_from(lead, starts[j], &pair.a, &pair.b, merger) == Inserted::Full {
            return Drained::Full(pair);
        }
    }
    Drained::All
}

// Merges the pairs of a lane in their order.
fn drain_lane<K: Object, V: Object, L: MergeLaw<V>, F: Fn(V, V) -> V + Sync>(
    lane: &mut Lane<Pair<K, V>>,
    lead: &MapLead<K, V, L>,
    pass: &mut MapPass<Own, K, V, L>,
    merger: &Merger<V, L, F>,
) -> Drained<K, V>
    requires answers { AnswersLaw V.passes V.words L.op (F.pre merger.now) (F.post merger.now) }
    requires of { IsOf pass.old lead.now }
    requires mine { All (λ p. IsMine (pass_view pass.old) (K.words p.a)) lane.old }
    ensures drains { DrainsLane K.words V.words L.op (lead_key lead.now) lane.old lane.new (pass_view pass.old) (pass_view pass.new) result }
    ensures of { IsOf pass.new lead.now }
{
    let mut starts = [Start { place: 0, home: 0 }; BATCH];
    while lane.left() > 0 {
        let count = starts_of(lane, lead, pass, &mut starts);
        if let Drained::Full(pair) = drain_batch(lane, lead, pass, merger, &starts, count) {
            return Drained::Full(pair);
        }
    }
    lane.clear();
    Drained::All
}

impl<K: Object, V: Object> Buffer<K, V> {
    /// Merges its pairs into a map, lane by lane, each in order, by one merge a pair. Then it is empty and fills again:
    /// `All`. It stops at a pair for which there is no bucket: `Full` has that pair, those behind it stay, and another
    /// drain goes on with them. It takes no memory, and makes no test of a pair's home.
    ///
    /// Condition: it is exchanged; the pass is of its rank, and of a map of its shape; the merger's function answers the
    /// map's law L.
    pub fn drain<L: MergeLaw<V>, F: Fn(V, V) -> V + Sync>(
        &mut self,
        lead: &MapLead<K, V, L>,
        pass: &mut MapPass<Own, K, V, L>,
        merger: &Merger<V, L, F>,
    ) -> Drained<K, V>
        requires exchanged { self.old.state ≡ Exchanged }
        requires of { IsOf pass.old lead.now }
        requires own { IsFor K.WORDS self.old (pass_view pass.old) }
        requires answers { AnswersLaw V.passes V.words L.op (F.pre merger.now) (F.post merger.now) }
        ensures drains { Drains K.words V.words L.op (lead_key lead.now) self.old self.new (pass_view pass.old) (pass_view pass.new) result }
        ensures of { IsOf pass.new lead.now }
    {
        for rank in 0..self.lanes.len() {
            let lane = &mut self.lanes[rank];
            if let Drained::Full(pair) = drain_lane(lane, lead, pass, merger) {
                return Drained::Full(pair);
            }
        }
        self.state = State::Filling;
        Drained::All
    }
}
