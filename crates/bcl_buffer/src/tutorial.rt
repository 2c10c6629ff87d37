//! The third program of docs/TUTORIAL.md: ranks count words, each by the rank of its home.

ghost use Rattle.std.specs.Prelude.{◌≡◌, ◌≤◌, ◌+◌, ◌*◌, ◌^◌, ℕ, map, length, IfOk};
ghost use mathlib.Core.Option.{some};
ghost use lib.ListN.{get_elem?};
ghost use Rattle.bcl_words.specs.Words.{Fits};
ghost use Rattle.bcl_segment.specs.Places.{places};
ghost use Rattle.bcl_phase.specs.Deals.{AreAll};
ghost use Rattle.bcl_map.specs.Parts.{lead_key};
ghost use Rattle.bcl_buffer.specs.declared.buffer.State.TheVariants.{Filling};
ghost use Rattle.bcl_buffer.specs.Drains.{shape_in};

use crate::{Buffer, flush};
use bcl_map::{ClosedMap, MapHome, begun, closed};
use bcl_merge::{Merger, Sum, wrapping_sum};
use bcl_phase::{Always, Kit, Own, superstep_all};
use bcl_segment::Layout;
use bcl_words::{Bytes16, MergeLaw, NoMemory, Object};
use std::alloc::Global;
use std::marker::Sync;
use std::test::Fail;
use std::thread::Threads;

/// One rank's part: it puts each of its words into its buffer, with a one.
#[derive(Drop)]
struct Reader<'a> {
    words: &'a [Bytes16],
    rank: u32,
    buffer: Buffer<Bytes16, u64>,
    /// There was no memory for a word.
    failed: bool,
}

// Puts each word into a buffer, with a one.
fn put_words(buffer: &mut Buffer<Bytes16, u64>, words: &[Bytes16]) -> Result<(), NoMemory>
    requires fills { buffer.old.state ≡ Filling }
    ensures rank { buffer.new.rank ≡ buffer.old.rank }
    ensures shape { buffer.new.shape ≡ buffer.old.shape }
    ensures fills { buffer.new.state ≡ Filling }
{
    for word in words {
        buffer.insert(*word, 1)?;
    }
    Ok(())
}

impl<'a> Kit for Reader<'a> {
    ghost ready = { λ k. k.buffer.state ≡ Filling };

    ghost step = { λ k l. (l.buffer.rank ≡ k.buffer.rank) × (l.buffer.shape ≡ k.buffer.shape) × (l.buffer.state ≡ Filling) };

    fn rank(&self) -> u32 {
        self.rank
    }

    fn part(&mut self) {
        self.failed = put_words(&mut self.buffer, self.words).is_err();
    }
}

// A reader for each list of words, the first of which is for rank 0.
fn readers<'a>(
    alloc: Global,
    lists: &'a [Vec<Bytes16>],
    shape: Layout,
) -> Result<Vec<Reader<'a>>, NoMemory>
    requires lists { length lists.now ≡ shape.ranks }
    requires places { (1 ≤ places shape) × (places shape ≤ 2 ^ 27) }
    ensures all { IfOk result (λ kits. length kits.items ≡ shape.ranks) }
    ensures kits { IfOk result (λ kits. (i : ℕ) (k : _) → get_elem? kits.items i ≡ some k → (k.buffer.rank ≡ i) × (k.buffer.shape ≡ shape) × (k.buffer.state ≡ Filling)) }
{
    let mut kits = Vec::new(alloc);
    for rank in 0..shape.ranks {
        let buffer = Buffer::new(alloc, shape, rank)?;
        kits.push(Reader {
            words: &lists[rank as usize],
            rank,
            buffer,
            failed: false,
        })?;
    }
    Ok(kits)
}

// The buffers of readers, if none wanted memory.
fn buffers_of(alloc: Global, kits: Vec<Reader>) -> Result<Vec<Buffer<Bytes16, u64>>, NoMemory>
    ensures { IfOk result (λ buffers. buffers.items ≡ map (λ k. k.buffer) kits.entry.items) }
{
    let mut buffers = Vec::with_capacity(alloc, kits.len())?;
    for kit in kits {
        if kit.failed {
            return Err(NoMemory);
        }
        buffers.push(kit.buffer)?;
    }
    Ok(buffers)
}

// The words of four lists, each with how often it stands in them.
fn count_words<H: Threads + Sync>(
    rt: &H,
    alloc: Global,
    lists: &[Vec<Bytes16>; 4],
) -> Result<ClosedMap<Bytes16, u64, Sum>, NoMemory> {
    // Four ranks with eight buckets each.
    let shape = Layout {
        ranks: 4,
        per_rank: 8,
    };

    // Each rank goes through its list, in a thread of its own.
    let mut kits = readers(alloc, lists, shape)?;
    superstep_all(rt, &mut kits, &Always);
    let buffers = buffers_of(alloc, kits)?;

    // Each word is merged by the rank of its home, whichever rank has read it.
    let home = MapHome::new(alloc, shape.ranks, shape.per_rank)?;
    let (lead, passes) = begun(alloc, home)?;
    let sum = Merger::new(|a: u64, b: u64| wrapping_sum(a, b));
    let (passes, _) = flush(rt, alloc, &lead, passes, buffers, &sum, &Always)?;

    // The home has seen the whole history. A closed map has its pairs.
    closed(alloc, lead.end::<Own>(passes))
}

// A word of at most sixteen letters.
fn word(letters: &[u8]) -> Bytes16 {
    let mut bytes = [0; 16];
    for (byte, letter) in bytes.iter_mut().zip(letters) {
        *byte = *letter;
    }
    Bytes16 { bytes }
}

// The words of a text.
fn words(alloc: Global, text: &str) -> Result<Vec<Bytes16>, NoMemory> {
    let mut words = Vec::new(alloc);
    for letters in text.split(' ') {
        words.push(word(letters.as_bytes()))?;
    }
    Ok(words)
}

#[test]
fn words_are_counted_side_by_side(rt: HostRuntime) -> Result<(), Fail> {
    let lists = [
        words(rt.alloc(), "to be or not")?,
        words(rt.alloc(), "to be that")?,
        words(rt.alloc(), "is")?,
        words(rt.alloc(), "the question to be")?,
    ];
    let counts = count_words(&rt, rt.alloc(), &lists)?;
    assert_eq!(rt; counts.entries().len(), 8);
    for (key, count) in counts.entries() {
        let often = *key == word(b"to") || *key == word(b"be");
        assert_eq!(rt; *count, if often { 3 } else { 1 });
    }
    Ok(())
}
