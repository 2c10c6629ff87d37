//! The superstep that fills: each rank puts the nodes of its block of lines into its buffer.

ghost use Rattle.std.specs.Prelude.{◌≡◌, ◌≤◌, ◌^◌, ℕ, [], None, All, IfOk, IsOk, length, map, replicate};
ghost use mathlib.Core.Option.{some};
ghost use lib.ListN.{get_elem?};
ghost use Rattle.kmer_text.specs.Kmers.{IsKmerLength};
ghost use Rattle.kmer_text.specs.Nodes.{bad_node};
ghost use Rattle.bcl_segment.specs.Places.{places};
ghost use Rattle.bcl_buffer.specs.declared.buffer.State.TheVariants.{Filling};
ghost use Rattle.kmer_walk.specs.Fills.{AreFilled};

use crate::filler::Filler;
use bcl_buffer::Buffer;
use bcl_phase::{Gate, superstep_all};
use bcl_segment::Layout;
use bcl_words::NoMemory;
use kmer_text::{Kmer, Lines, Node};
use std::alloc::Global;
use std::marker::Sync;
use std::thread::Threads;

// A filler for each rank, with an empty buffer.
fn fillers<'a>(
    alloc: Global,
    lines: &'a Lines,
    k: u32,
    shape: Layout,
) -> Result<Vec<Filler<'a>>, NoMemory>
    requires places { (1 ≤ places shape) × (places shape ≤ 2 ^ 27) }
    ensures count { IfOk result (λ kits. length kits.items ≡ shape.ranks) }
    ensures kits { IfOk result (λ kits. (r : ℕ) (f : _) → get_elem? kits.items r ≡ some f → (f.lines.now ≡ lines.entry.now) × (f.k ≡ k) × (f.rank ≡ r) × (f.ranks ≡ shape.ranks) × (f.buffer ≡ record { rank = r; shape = shape; state = Filling; lanes = replicate shape.ranks [] })) }
{
    let mut kits = Vec::with_capacity(alloc, shape.ranks as usize)?;
    for rank in 0..shape.ranks {
        kits.push(Filler {
            lines,
            k,
            rank,
            ranks: shape.ranks,
            buffer: Buffer::new(alloc, shape, rank)?,
            filled: Ok(()),
        })?;
    }
    Ok(kits)
}

// The buffers of fillers, where each had memory.
fn buffers_of(alloc: Global, kits: Vec<Filler>) -> Result<Vec<Buffer<Kmer, Node>>, NoMemory>
    ensures filled { IfOk result (λ _. All (λ f. IsOk f.filled) kits.entry.items) }
    ensures buffers { IfOk result (λ v. v.items ≡ map (λ f. f.buffer) kits.entry.items) }
{
    let mut buffers = Vec::with_capacity(alloc, kits.len())?;
    for kit in kits {
        kit.filled?;
        buffers.push(kit.buffer)?;
    }
    Ok(buffers)
}

/// A buffer for each rank, of a map of this shape, with the nodes of the rank's block of lines. Where one rank wants memory
/// the others fill theirs, and then it refuses.
pub(crate) fn fill<H: Threads + Sync, G: Gate>(
    rt: &H,
    alloc: Global,
    lines: &Lines,
    k: u32,
    shape: Layout,
    gate: &G,
) -> Result<Vec<Buffer<Kmer, Node>>, NoMemory>
    requires k { IsKmerLength k }
    requires good { bad_node k lines.now ≡ None }
    requires ranks { 1 ≤ shape.ranks }
    requires places { (1 ≤ places shape) × (places shape ≤ 2 ^ 27) }
    ensures filled { IfOk result (λ v. AreFilled k lines.now shape v.items) }
{
    let mut kits = fillers(alloc, lines, k, shape)?;
    superstep_all(rt, &mut kits, gate);
    buffers_of(alloc, kits)
}
