//! Tests of flushes: each rank puts the same pairs into its buffer.

ghost use Rattle.std.specs.Prelude.{◌≡◌, ◌≤◌, ◌+◌, ◌*◌, ◌^◌, ℕ, length, IfOk};
ghost use mathlib.Core.Option.{some};
ghost use lib.ListN.{get_elem?};
ghost use Rattle.bcl_words.specs.Words.{Fits};
ghost use Rattle.bcl_words.specs.Merges.{AnswersLaw};
ghost use Rattle.bcl_segment.specs.Places.{places};
ghost use Rattle.bcl_buffer.specs.declared.buffer.State.TheVariants.{Filling};

use super::filled;
use crate::{Buffer, flush};
use bcl_map::{MapHome, begun, closed};
use bcl_merge::{LeastWords, Merger, Sum, least_words, wrapping_sum};
use bcl_phase::{Always, Own};
use bcl_segment::Layout;
use bcl_words::{MergeLaw, NoMemory, Object};
use std::alloc::Global;
use std::marker::Sync;
use std::test::Fail;
use std::thread::Threads;

// The buffers of all ranks, each with these pairs.
fn all_filled<K: Object, V: Object>(
    alloc: Global,
    shape: Layout,
    pairs: &[(K, V)],
) -> Result<Vec<Buffer<K, V>>, NoMemory>
    requires key { Fits K.WORDS }
    requires places { (1 ≤ places shape) × (places shape ≤ 2 ^ 27) }
    ensures all { IfOk result (λ buffers. length buffers.items ≡ shape.ranks) }
    ensures each { IfOk result (λ buffers. (i : ℕ) (b : _) → get_elem? buffers.items i ≡ some b → (b.rank ≡ i) × (b.shape ≡ shape) × (b.state ≡ Filling)) }
{
    let mut buffers = Vec::new(alloc);
    for rank in 0..shape.ranks {
        let buffer = filled(alloc, shape, rank, pairs)?;
        buffers.push(buffer)?;
    }
    Ok(buffers)
}

// The pairs of a map of this shape into which all ranks have flushed these.
fn flushed<K: Object, V: Object, L: MergeLaw<V>, F: Fn(V, V) -> V + Sync, H: Threads + Sync>(
    rt: &H,
    alloc: Global,
    shape: Layout,
    pairs: &[(K, V)],
    merger: &Merger<V, L, F>,
) -> Result<Vec<(K, V)>, Fail>
    requires key { Fits K.WORDS }
    requires value { Fits V.WORDS }
    requires ranks { (1 ≤ shape.ranks) × (shape.ranks ≤ 64) }
    requires buckets { 1 ≤ shape.per_rank }
    requires words { shape.ranks * shape.per_rank * (1 + (K.WORDS + V.WORDS)) ≤ 2 ^ 27 }
    requires places { (1 ≤ places shape) × (places shape ≤ 2 ^ 27) }
    requires answers { AnswersLaw V.passes V.words L.op (F.pre merger.now) (F.post merger.now) }
{
    let buffers = all_filled(alloc, shape, pairs)?;
    let home = MapHome::new(alloc, shape.ranks, shape.per_rank)?;
    let (lead, passes) = begun(alloc, home)?;
    let (passes, buffers) = flush(rt, alloc, &lead, passes, buffers, merger, &Always)?;
    for buffer in &buffers {
        if !buffer.is_filling() || buffer.left() != 0 {
            return Err(Fail::new("a buffer isn't empty"));
        }
    }
    let closed = closed(alloc, lead.end::<Own>(passes))?;
    Ok(closed.entries().to_vec(alloc)?)
}

#[test]
fn four_ranks_lose_nothing_in_a_small_map(rt: HostRuntime) -> Result<(), Fail> {
    let shape = Layout {
        ranks: 4,
        per_rank: 4,
    };
    let mut pairs = Vec::new(rt.alloc());
    for round in 0..1000u64 {
        for key in 0..16u64 {
            pairs.push((key, round))?;
        }
    }
    let sum = Merger::new(|a: u64, b: u64| wrapping_sum(a, b));
    let mut found: Vec<(u64, u64)> = flushed::<u64, u64, Sum, _, _>(
        &rt,
        rt.alloc(),
        shape,
        &pairs,
        &sum,
    )?;
    found.sort_unstable();
    assert_eq!(rt; found.len(), 16);
    for (key, value) in &found {
        assert!(rt; *key < 16);
        assert_eq!(rt; *value, 4 * 499_500);
    }
    Ok(())
}

#[test]
fn merges_behind_one_without_a_bucket_are_made(rt: HostRuntime) -> Result<(), Fail> {
    let shape = Layout {
        ranks: 1,
        per_rank: 1,
    };
    let pairs = [(7u32, 9u128), (8, 1), (7, 3), (8, 2), (7, 5)];
    let least = Merger::new(|a: u128, b: u128| least_words(a, b));
    let found: Vec<(u32, u128)> = flushed::<u32, u128, LeastWords, _, _>(
        &rt,
        rt.alloc(),
        shape,
        &pairs,
        &least,
    )?;
    assert_eq!(rt; found.as_slice(), [(7, 3)].as_slice());
    Ok(())
}
