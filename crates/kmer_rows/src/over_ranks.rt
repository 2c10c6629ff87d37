//! The rows of a list of counts, written side by side.

ghost use Rattle.std.specs.Prelude.{◌≡◌, ◌^◌, ◌<◌, ◌≤◌, length, IfOk, All};
ghost use Rattle.std.specs.Thread.{IsSync};
ghost use Rattle.kmer_text.specs.Kmers.{IsKmerLength};
ghost use Rattle.kmer_rows.specs.Counts.{rows};

use crate::push_rows;
use bcl_words::NoMemory;
use kmer_text::Kmer;
use std::alloc::Global;
use std::marker::Sync;
use std::thread::{Threads, join};

// The bytes of a row beside its letters: a tab, 7 digits and a newline. A text with greater counts grows.
const BESIDE: usize = 9;

// The rows of a list, in a text that is made for so many rows.
fn rows_of_part(
    alloc: Global,
    counts: &[(Kmer, u64)],
    k: u32,
    least: u64,
    room: usize,
) -> Result<Vec<u8>, NoMemory>
    requires k { IsKmerLength k }
    requires values { All (λ entry. entry.0 < 4 ^ k) counts.now }
    ensures { IfOk result (λ text. text.items ≡ rows k least counts.now) }
{
    let row = k as usize + BESIDE;
    let mut text = Vec::with_capacity(alloc, room.saturating_mul(row))?;
    push_rows(&mut text, counts, k, least)?;
    Ok(text)
}

// The rows of a list by so many threads. The text is made for so many rows, of which the list has some.
fn rows_by<H: Threads + Sync>(
    rt: &H,
    alloc: Global,
    counts: &[(Kmer, u64)],
    k: u32,
    least: u64,
    threads: u32,
    room: usize,
) -> Result<Vec<u8>, NoMemory>
    requires k { IsKmerLength k }
    requires values { All (λ entry. entry.0 < 4 ^ k) counts.now }
    ensures { IfOk result (λ text. text.items ≡ rows k least counts.now) }
{
    if threads < 2 {
        return rows_of_part(alloc, counts, k, least, room);
    }
    let few = threads / 2;
    let more = threads - few;
    let (front, back) = counts.split_at(counts.len() / threads as usize * few as usize);
    let (text, rest) = join(
        rt,
        ||
            requires { IsSync H.row × IsKmerLength k × All (λ entry. entry.0 < 4 ^ k) front.now }
            ensures { IfOk result (λ text. text.items ≡ rows k least front.entry.now) }
        { rows_by(rt, alloc, front, k, least, few, room) },
        ||
            requires { IsSync H.row × IsKmerLength k × All (λ entry. entry.0 < 4 ^ k) back.now }
            ensures { IfOk result (λ text. text.items ≡ rows k least back.entry.now) }
        { rows_by(rt, alloc, back, k, least, more, back.len()) },
    );
    let mut text = text?;
    text.extend_from_slice(&rest?)?;
    Ok(text)
}

/// The text of a row for each k-mer of the list that is counted at least `least` times, in the order of the list. Each
/// rank writes the rows of a part of the list, in a thread of its own where one can be made.
pub fn rows_over_ranks<H: Threads + Sync>(
    rt: &H,
    alloc: Global,
    counts: &[(Kmer, u64)],
    k: u32,
    least: u64,
    ranks: u32,
) -> Result<Vec<u8>, NoMemory>
    requires k { IsKmerLength k }
    requires values { All (λ entry. entry.0 < 4 ^ k) counts.now }
    ensures { IfOk result (λ text. text.items ≡ rows k least counts.now) }
{
    rows_by(rt, alloc, counts, k, least, ranks, counts.len())
}
