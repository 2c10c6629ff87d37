//! The flush: the pairs of all buffers, merged into a map, each by the rank of its key's home.

ghost use Rattle.std.specs.Prelude.{◌≡◌, ◌<◌, ℕ, map, length, All, IfOk};
ghost use Rattle.std.specs.List.{AllZip};
ghost use mathlib.Core.Option.{some};
ghost use lib.ListN.{get_elem?};
ghost use Rattle.bcl_words.specs.Merges.{AnswersLaw};
ghost use Rattle.bcl_phase.specs.Deals.{AreAll};
ghost use Rattle.bcl_map.specs.Parts.{lead_key, pass_view, IsOf};
ghost use Rattle.bcl_buffer.specs.declared.buffer.State.TheVariants.{Exchanged};
ghost use Rattle.bcl_buffer.specs.Lanes.{lane, items, home_in};
ghost use Rattle.bcl_buffer.specs.Exchanges.{at, AllFill, Exchanges};
ghost use Rattle.bcl_buffer.specs.Drains.{IsFor, shape_in};
ghost use Rattle.bcl_buffer.specs.Flushes.{column, emptied, MergedOnce, IsReady, IsDrained};

use crate::buffer::Buffer;
use crate::draining::Drained;
use crate::exchanging::exchange;
use bcl_map::{Map, MapLead, MapPass};
use bcl_merge::Merger;
use bcl_phase::{Gate, Own, Phased};
use bcl_words::{MergeLaw, NoMemory, Object};
use std::alloc::Global;
use std::marker::Sync;
use std::thread::{Threads, for_each_mut};

// What a rank needs for its part of a flush.
#[derive(Drop)]
pub(crate) struct Drainer<K: Object, V: Object, L>
where
    Map<K, V, L>: Phased,
{
    pass: MapPass<Own, K, V, L>,
    buffer: Buffer<K, V>,
}

// Merges all pairs of a buffer, those behind one for which there is no bucket too.
fn drain_all<K: Object, V: Object, L: MergeLaw<V>, F: Fn(V, V) -> V + Sync>(
    lead: &MapLead<K, V, L>,
    merger: &Merger<V, L, F>,
    pass: &mut MapPass<Own, K, V, L>,
    buffer: &mut Buffer<K, V>,
)
    requires answers { AnswersLaw V.passes V.words L.op (F.pre merger.now) (F.post merger.now) }
    requires of { IsOf pass.old lead.now }
    requires exchanged { buffer.old.state ≡ Exchanged }
    requires own { IsFor K.WORDS buffer.old (pass_view pass.old) }
    ensures merged { MergedOnce K.words V.words L.op (lead_key lead.now) (items buffer.old) (pass_view pass.old) (pass_view pass.new) }
    ensures empty { buffer.new ≡ emptied buffer.old }
    ensures of { IsOf pass.new lead.now }
{
    while let Drained::Full(_) = buffer.drain(lead, pass, merger) {}
}

// The superstep that drains: each rank enters the gate, and then merges the pairs of its buffer.
fn drain_side_by_side<
    K: Object,
    V: Object,
    L: MergeLaw<V>,
    F: Fn(V, V) -> V + Sync,
    G: Gate,
    H: Threads + Sync,
>(
    rt: &H,
    lead: &MapLead<K, V, L>,
    merger: &Merger<V, L, F>,
    gate: &G,
    kits: &mut [Drainer<K, V, L>],
)
    requires answers { AnswersLaw V.passes V.words L.op (F.pre merger.now) (F.post merger.now) }
    requires ready { All (λ k. IsReady lead.now K.WORDS (k.pass, k.buffer)) kits.old }
    ensures count { length kits.new ≡ length kits.old }
    ensures steps { AllZip (λ k l. IsDrained lead.now K.words V.words L.op (k.pass, k.buffer) (l.pass, l.buffer)) kits.old kits.new }
{
    let threads = kits.len().max(1);
    for_each_mut(
        rt,
        kits,
        threads,
        &|_, kit: &mut Drainer<K, V, L>|
            requires { AnswersLaw V.passes V.words L.op (F.pre merger.now) (F.post merger.now) × IsReady lead.now K.WORDS (kit.now.pass, kit.now.buffer) }
            ensures { IsDrained lead.entry.now K.words V.words L.op (kit.entry.now.pass, kit.entry.now.buffer) (kit.exit.now.pass, kit.exit.now.buffer) }
        {
            gate.enter(kit.pass.rank());
            drain_all(lead, merger, &mut kit.pass, &mut kit.buffer);
        },
    );
}

// The same, of drainers in a list.
fn drain_each<
    K: Object,
    V: Object,
    L: MergeLaw<V>,
    F: Fn(V, V) -> V + Sync,
    G: Gate,
    H: Threads + Sync,
>(
    rt: &H,
    lead: &MapLead<K, V, L>,
    merger: &Merger<V, L, F>,
    gate: &G,
    kits: &mut Vec<Drainer<K, V, L>>,
)
    requires answers { AnswersLaw V.passes V.words L.op (F.pre merger.now) (F.post merger.now) }
    requires ready { All (λ k. IsReady lead.now K.WORDS (k.pass, k.buffer)) kits.old.items }
    ensures count { length kits.new.items ≡ length kits.old.items }
    ensures steps { AllZip (λ k l. IsDrained lead.now K.words V.words L.op (k.pass, k.buffer) (l.pass, l.buffer)) kits.old.items kits.new.items }
{
    drain_side_by_side(rt, lead, merger, gate, kits.as_mut_slice());
}

// All buffers' lanes change places.
fn exchange_all<K: Object, V: Object>(buffers: &mut Vec<Buffer<K, V>>)
    requires fill { AllFill buffers.old.items }
    ensures exchanges { Exchanges buffers.old.items buffers.new.items }
    ensures homes { (r s : ℕ) → r < length buffers.old.items → All (λ p. home_in K.WORDS (at buffers.old.items r).shape (K.words p.a) ≡ s) (lane (at buffers.old.items r) s) }
{
    exchange(buffers.as_mut_slice());
}

// A drainer for each pass, with the buffer of its rank.
fn drainers<K: Object, V: Object, L: MergeLaw<V>>(
    alloc: Global,
    passes: Vec<MapPass<Own, K, V, L>>,
    buffers: Vec<Buffer<K, V>>,
) -> Result<Vec<Drainer<K, V, L>>, NoMemory>
    requires same { length passes.items ≡ length buffers.items }
    ensures passes { IfOk result (λ kits. map (λ k. k.pass) kits.items ≡ passes.items) }
    ensures buffers { IfOk result (λ kits. map (λ k. k.buffer) kits.items ≡ buffers.items) }
{
    let mut kits = Vec::with_capacity(alloc, passes.len())?;
    let mut buffers = buffers.into_iter();
    for pass in passes {
        let Some(buffer) = buffers.next() else {
            unreachable!()
        };
        kits.push(Drainer { pass, buffer })?;
    }
    Ok(kits)
}

// The passes of drainers, and their buffers.
fn parts_of<K: Object, V: Object, L: MergeLaw<V>>(
    alloc: Global,
    kits: Vec<Drainer<K, V, L>>,
) -> Result<(Vec<MapPass<Own, K, V, L>>, Vec<Buffer<K, V>>), NoMemory>
    ensures passes { IfOk result (λ r. r.0.items ≡ map (λ k. k.pass) kits.items) }
    ensures buffers { IfOk result (λ r. r.1.items ≡ map (λ k. k.buffer) kits.items) }
{
    let mut passes = Vec::with_capacity(alloc, kits.len())?;
    let mut buffers = Vec::with_capacity(alloc, kits.len())?;
    for kit in kits {
        passes.push(kit.pass)?;
        buffers.push(kit.buffer)?;
    }
    Ok((passes, buffers))
}

/// Merges each pair of all buffers once into a map, by the rank of its key's home, and nothing else; in which order isn't
/// said. It answers the passes, and the buffers, which are empty and fill again. A merge may be answered `Full`; the others
/// are made all the same.
///
/// It is one superstep or more, in each of which every rank enters the gate once. It refuses for want of memory alone, and
/// then passes and buffers are gone. Condition: the passes are all those of the lead, and the buffers, one for each rank,
/// fill and have the map's shape; the merger's function answers the map's law L.
pub fn flush<
    K: Object,
    V: Object,
    L: MergeLaw<V>,
    F: Fn(V, V) -> V + Sync,
    G: Gate,
    H: Threads + Sync,
>(
    rt: &H,
    alloc: Global,
    lead: &MapLead<K, V, L>,
    passes: Vec<MapPass<Own, K, V, L>>,
    mut buffers: Vec<Buffer<K, V>>,
    merger: &Merger<V, L, F>,
    gate: &G,
) -> Result<(Vec<MapPass<Own, K, V, L>>, Vec<Buffer<K, V>>), NoMemory>
    requires all { AreAll (λ p. p.pass) lead.now.lead passes.items }
    requires fill { AllFill buffers.items }
    requires count { length buffers.items ≡ length passes.items }
    requires shape { lead_key lead.now ≡ shape_in K.WORDS (at buffers.items 0).shape }
    requires answers { AnswersLaw V.passes V.words L.op (F.pre merger.now) (F.post merger.now) }
    ensures merged { IfOk result (λ r. (i : ℕ) (p q : _) → get_elem? passes.items i ≡ some p → get_elem? r.0.items i ≡ some q → MergedOnce K.words V.words L.op (lead_key lead.now) (column i buffers.items) (pass_view p) (pass_view q)) }
    ensures homes { IfOk result (λ _. (i : ℕ) → i < length buffers.items → All (λ p. home_in K.WORDS (at buffers.items 0).shape (K.words p.a) ≡ i) (column i buffers.items)) }
    ensures all { IfOk result (λ r. AreAll (λ p. p.pass) lead.now.lead r.0.items) }
    ensures empty { IfOk result (λ r. r.1.items ≡ map emptied buffers.items) }
{
    exchange_all(&mut buffers);
    let mut kits = drainers(alloc, passes, buffers)?;
    drain_each(rt, lead, merger, gate, &mut kits);
    parts_of(alloc, kits)
}
