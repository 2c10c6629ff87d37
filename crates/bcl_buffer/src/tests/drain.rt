//! Tests of drains.

ghost use Rattle.std.specs.Prelude.{◌≡◌, ◌≤◌, ◌+◌, ◌*◌, ◌^◌, ℕ, true, length, IfOk};
ghost use mathlib.Core.Option.{some};
ghost use lib.ListN.{get_elem?};
ghost use Rattle.bcl_words.specs.Words.{Fits};
ghost use Rattle.bcl_words.specs.Merges.{AnswersLaw};
ghost use Rattle.bcl_phase.specs.Deals.{AreOf, AreAll};
ghost use Rattle.bcl_map.specs.Parts.{lead_key, pass_view, IsOf};
ghost use Rattle.bcl_buffer.specs.declared.buffer.State.TheVariants.{Exchanged};
ghost use Rattle.bcl_buffer.specs.Drains.{shape_in, IsFor};

use super::{SHAPE, filled};
use crate::{Buffer, Drained, State, exchange};
use bcl_map::{ClosedMap, MapHome, MapLead, MapPass, begun, closed};
use bcl_merge::{Merger, Sum, wrapping_sum};
use bcl_phase::{Always, Carries, Kit, Own, passes_of, superstep_all};
use bcl_segment::Layout;
use bcl_words::{MergeLaw, NoMemory, Object, Pair};
use std::alloc::Global;
use std::marker::Sync;
use std::test::Fail;
use std::thread::Threads;

// Whether a buffer has pairs for a rank of a map of this shape.
fn is_for<K: Object, V: Object>(buffer: &Buffer<K, V>, rank: u32, shape: Layout) -> bool
    ensures { result ≡ true → (buffer.now.rank ≡ rank) × (buffer.now.shape ≡ shape) × (buffer.now.state ≡ Exchanged) }
{
    buffer.rank == rank && buffer.shape == shape && buffer.state == State::Exchanged
}

// One rank's part: it drains its buffer.
#[derive(Drop)]
struct Drainer<'a> {
    lead: &'a MapLead<u64, u64, Sum>,
    pass: MapPass<Own, u64, u64, Sum>,
    buffer: Buffer<u64, u64>,
    drained: Drained<u64, u64>,
}

impl<'a> Kit for Drainer<'a> {
    ghost ready = { λ k. IsOf k.pass k.lead.now × (k.buffer.state ≡ Exchanged) × IsFor 1 k.buffer (pass_view k.pass) };

    ghost step = { λ k l. (l.lead ≡ k.lead) × IsOf l.pass k.lead.now × ((pass_view l.pass).rank ≡ (pass_view k.pass).rank) };

    fn rank(&self) -> u32 {
        self.pass.rank()
    }

    fn part(&mut self) {
        let sum = Merger::new(|a: u64, b: u64| wrapping_sum(a, b));
        self.drained = self.buffer.drain(self.lead, &mut self.pass, &sum);
    }
}

impl<'a> Carries for Drainer<'a> {
    type Pass = MapPass<Own, u64, u64, Sum>;

    ghost pass = { λ k. k.pass };

    fn into_pass(self) -> MapPass<Own, u64, u64, Sum> {
        self.pass
    }
}

// A drainer for each pass, the last rank first.
fn drainers<'a>(
    alloc: Global,
    lead: &'a MapLead<u64, u64, Sum>,
    mut passes: Vec<MapPass<Own, u64, u64, Sum>>,
    mut buffers: Vec<Buffer<u64, u64>>,
    shape: Layout,
) -> Result<Vec<Drainer<'a>>, Fail>
    requires passes { AreOf (λ p. p.pass) lead.now.lead passes.items }
    requires shape { lead_key lead.now ≡ shape_in 1 shape }
    ensures all { IfOk result (λ kits. length kits.items ≡ length passes.items) }
    ensures kits { IfOk result (λ kits. (i : ℕ) (k : _) → get_elem? kits.items i ≡ some k → (k.lead.now ≡ lead.entry.now) × IsOf k.pass lead.entry.now × (k.buffer.state ≡ Exchanged) × IsFor 1 k.buffer (pass_view k.pass) × ((pass_view k.pass).rank + i + 1 ≡ length passes.items)) }
{
    let mut kits = Vec::new(alloc);
    while let Some(pass) = passes.pop() {
        let Some(buffer) = buffers.pop() else {
            return Err(Fail::new("no buffer"));
        };
        if !is_for(&buffer, pass.rank(), shape) {
            return Err(Fail::new("not the rank's buffer"));
        }
        kits.push(Drainer {
            lead,
            pass,
            buffer,
            drained: Drained::All,
        })?;
    }
    Ok(kits)
}

// The pairs of a map into which two ranks drained their buffers side by side, in the order of their keys; and how many
// drains came to their end.
fn side_by_side<H: Threads + Sync>(
    rt: &H,
    alloc: Global,
    buffers: Vec<Buffer<u64, u64>>,
) -> Result<(u64, Vec<(u64, u64)>), Fail> {
    let home = MapHome::new(alloc, SHAPE.ranks, SHAPE.per_rank)?;
    let (lead, passes) = begun(alloc, home)?;
    let mut kits = drainers(alloc, &lead, passes, buffers, SHAPE)?;
    superstep_all(rt, &mut kits, &Always);
    let mut ended = 0u64;
    for kit in &kits {
        if kit.drained == Drained::All && kit.buffer.is_filling() && kit.buffer.left() == 0 {
            ended = ended.wrapping_add(1);
        }
    }
    let passes = passes_of(alloc, &lead.lead, kits)?;
    let closed = closed(alloc, lead.end::<Own>(passes))?;
    let mut found = closed.entries().to_vec(alloc)?;
    found.sort_unstable();
    Ok((ended, found))
}

#[test]
fn ranks_sum_up_side_by_side(rt: HostRuntime) -> Result<(), Fail> {
    let first = filled(rt.alloc(), SHAPE, 0, &[(3, 30), (2, 20), (6, 60), (3, 1)])?;
    let second = filled(rt.alloc(), SHAPE, 1, &[(2, 21), (3, 31), (0, 1)])?;
    let mut buffers = Vec::new(rt.alloc());
    buffers.push(first)?;
    buffers.push(second)?;
    exchange(&mut buffers);
    let (ended, found) = side_by_side(&rt, rt.alloc(), buffers)?;
    assert_eq!(rt; ended, 2);
    assert_eq!(rt;
        found.as_slice(),
        [(0, 1), (2, 41), (3, 62), (6, 60)].as_slice()
    );
    Ok(())
}

// What the last rank's drain comes to, and its buffer.
fn last_drains<K: Object, V: Object, L: MergeLaw<V>, F: Fn(V, V) -> V + Sync>(
    lead: &MapLead<K, V, L>,
    passes: &mut Vec<MapPass<Own, K, V, L>>,
    mut buffer: Buffer<K, V>,
    shape: Layout,
    merger: &Merger<V, L, F>,
) -> Result<(Drained<K, V>, Buffer<K, V>), Fail>
    requires of { AreOf (λ p. p.pass) lead.now.lead passes.old.items }
    requires shape { lead_key lead.now ≡ shape_in K.WORDS shape }
    requires answers { AnswersLaw V.passes V.words L.op (F.pre merger.now) (F.post merger.now) }
    ensures of { IfOk result (λ _. AreOf (λ p. p.pass) lead.now.lead passes.new.items) }
    ensures all { IfOk result (λ _. length passes.new.items ≡ length passes.old.items) }
{
    let Some(mut pass) = passes.pop() else {
        return Err(Fail::new("no pass"));
    };
    if !is_for(&buffer, pass.rank(), shape) {
        return Err(Fail::new("not the rank's buffer"));
    }
    let drained = buffer.drain(lead, &mut pass, merger);
    passes.push(pass)?;
    Ok((drained, buffer))
}

// Three drains of a buffer into a map of one bucket, how many pairs each leaves, and the map.
fn one_bucket<F: Fn(u64, u64) -> u64 + Sync>(
    alloc: Global,
    buffer: Buffer<u64, u64>,
    shape: Layout,
    sum: &Merger<u64, Sum, F>,
) -> Result<([(Drained<u64, u64>, u64); 3], ClosedMap<u64, u64, Sum>), Fail>
    requires shape { shape ≡ record { ranks = 1; per_rank = 1 } }
    requires answers { AnswersLaw ⟦<u64 as Object>⟧.passes ⟦<u64 as Object>⟧.words ⟦<Sum as MergeLaw<u64>>⟧.op (F.pre sum.now) (F.post sum.now) }
{
    let home = MapHome::new(alloc, shape.ranks, shape.per_rank)?;
    let (lead, mut passes) = begun(alloc, home)?;
    let (first, buffer) = last_drains(&lead, &mut passes, buffer, shape, sum)?;
    let first = (first, buffer.left());
    let (second, buffer) = last_drains(&lead, &mut passes, buffer, shape, sum)?;
    let second = (second, buffer.left());
    let (third, buffer) = last_drains(&lead, &mut passes, buffer, shape, sum)?;
    let third = (third, buffer.left());
    let closed = closed(alloc, lead.end::<Own>(passes))?;
    Ok(([first, second, third], closed))
}

#[test]
fn a_full_map_stops_at_the_pair(rt: HostRuntime) -> Result<(), Fail> {
    let shape = Layout {
        ranks: 1,
        per_rank: 1,
    };
    let pairs = [(3, 30), (3, 5), (6, 60), (3, 7), (8, 1)];
    let mut buffers = Vec::new(rt.alloc());
    buffers.push(filled(rt.alloc(), shape, 0, &pairs)?)?;
    exchange(&mut buffers);
    let Some(buffer) = buffers.pop() else {
        return Err(Fail::new("no buffer"));
    };
    let sum = Merger::new(|a: u64, b: u64| wrapping_sum(a, b));
    let (drained, closed) = one_bucket(rt.alloc(), buffer, shape, &sum)?;
    assert_eq!(rt; drained[0], (Drained::Full(Pair { a: 6, b: 60 }), 2));
    assert_eq!(rt; drained[1], (Drained::Full(Pair { a: 8, b: 1 }), 0));
    assert_eq!(rt; drained[2], (Drained::All, 0));
    assert_eq!(rt; closed.entries(), [(3, 42)].as_slice());
    Ok(())
}
