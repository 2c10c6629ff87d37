//! A rank's part of a fill: a one for each k-mer of its block of lines.

ghost use Rattle.std.specs.Prelude.{◌≡◌, ◌<◌, All, IsTrue, OnOk, map};
ghost use Rattle.kmer_text.specs.Kmers.{IsKmerLength, number_of};
ghost use Rattle.kmer_text.specs.Letters.{are_letters};
ghost use Rattle.kmer_text.specs.Windows.{windows};
ghost use Rattle.bcl_buffer.specs.declared.buffer.State.TheVariants.{Filling};
ghost use Rattle.kmer_count.specs.Fills.{Fills, kmers_of};

use bcl_buffer::Buffer;
use bcl_phase::Kit;
use bcl_words::NoMemory;
use kmer_blocks::first_of;
use kmer_text::{Kmer, Lines, Windows};

// What a rank needs to fill its buffer.
#[derive(Drop)]
pub(crate) struct Filler<'a> {
    pub(crate) lines: &'a Lines,
    pub(crate) k: u32,
    pub(crate) rank: u32,
    pub(crate) ranks: u32,
    pub(crate) buffer: Buffer<Kmer, u64>,
    // whether there was memory for all pairs
    pub(crate) filled: Result<(), NoMemory>,
}

// Puts a one for each window of a line.
fn fill_line(buffer: &mut Buffer<Kmer, u64>, line: &[u8], k: u32) -> Result<(), NoMemory>
    requires k { IsKmerLength k }
    requires letters { IsTrue (are_letters line.now) }
    requires filling { buffer.old.state ≡ Filling }
    ensures fills { OnOk result (Fills (map number_of (windows k line.now)) buffer.old buffer.new) }
{
    for kmer in Windows::new(line, k) {
        buffer.insert(kmer, 1)?;
    }
    Ok(())
}

// Puts a one for each window of the lines of a rank's block.
fn fill_block(
    buffer: &mut Buffer<Kmer, u64>,
    lines: &Lines,
    k: u32,
    rank: u32,
    ranks: u32,
) -> Result<(), NoMemory>
    requires k { IsKmerLength k }
    requires letters { All (λ line. IsTrue (are_letters line)) lines.now }
    requires rank { rank < ranks }
    requires filling { buffer.old.state ≡ Filling }
    ensures fills { OnOk result (Fills (kmers_of k rank ranks lines.now) buffer.old buffer.new) }
{
    let first = first_of(lines, rank, ranks);
    let end = first_of(lines, rank + 1, ranks);
    for i in first..end {
        fill_line(buffer, lines.line(i), k)?;
    }
    Ok(())
}

impl<'a> Kit for Filler<'a> {
    ghost ready = { λ k. IsKmerLength k.k × All (λ line. IsTrue (are_letters line)) k.lines.now × (k.rank < k.ranks) × (k.buffer.state ≡ Filling) };

    ghost step = { λ k l. OnOk l.filled (Fills (kmers_of k.k k.rank k.ranks k.lines.now) k.buffer l.buffer) };

    fn rank(&self) -> u32 {
        self.rank
    }

    fn part(&mut self) {
        self.filled = fill_block(&mut self.buffer, self.lines, self.k, self.rank, self.ranks);
    }
}
