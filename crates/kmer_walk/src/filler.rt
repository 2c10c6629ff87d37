//! A rank's part of a fill: the node of each line of its block.

ghost use Rattle.std.specs.Prelude.{◌≡◌, ◌+◌, ◌<◌, OnOk, None, length};
ghost use Rattle.kmer_text.specs.Kmers.{IsKmerLength};
ghost use Rattle.kmer_text.specs.Nodes.{bad_node};
ghost use Rattle.bcl_buffer.specs.declared.buffer.State.TheVariants.{Filling};
ghost use Rattle.kmer_walk.specs.Nodes.{nodes_from, nodes_of};
ghost use Rattle.kmer_walk.specs.Fills.{Fills};

use bcl_buffer::Buffer;
use bcl_phase::Kit;
use bcl_words::NoMemory;
use kmer_blocks::first_of;
use kmer_text::{Kmer, Lines, Node, node_of};

// What a rank needs to fill its buffer.
#[derive(Drop)]
pub(crate) struct Filler<'a> {
    pub(crate) lines: &'a Lines,
    pub(crate) k: u32,
    pub(crate) rank: u32,
    pub(crate) ranks: u32,
    pub(crate) buffer: Buffer<Kmer, Node>,
    // whether there was memory for all pairs
    pub(crate) filled: Result<(), NoMemory>,
}

// Puts the node of a line, if it has one.
fn fill_line(
    buffer: &mut Buffer<Kmer, Node>,
    lines: &Lines,
    k: u32,
    place: u32,
) -> Result<(), NoMemory>
    requires k { IsKmerLength k }
    requires good { bad_node k lines.now ≡ None }
    requires place { place < length lines.now }
    requires filling { buffer.old.state ≡ Filling }
    ensures fills { OnOk result (Fills k lines.now (nodes_from lines.now place (place + 1)) buffer.old buffer.new) }
{
    match node_of(lines, place, k) {
        Some(pair) => buffer.insert(pair.0, pair.1),
        None => Ok(()),
    }
}

// Puts the node of each line of a rank's block.
fn fill_block(
    buffer: &mut Buffer<Kmer, Node>,
    lines: &Lines,
    k: u32,
    rank: u32,
    ranks: u32,
) -> Result<(), NoMemory>
    requires k { IsKmerLength k }
    requires good { bad_node k lines.now ≡ None }
    requires rank { rank < ranks }
    requires filling { buffer.old.state ≡ Filling }
    ensures fills { OnOk result (Fills k lines.now (nodes_of rank ranks lines.now) buffer.old buffer.new) }
{
    let first = first_of(lines, rank, ranks);
    let end = first_of(lines, rank + 1, ranks);
    for place in first..end {
        fill_line(buffer, lines, k, place)?;
    }
    Ok(())
}

impl<'a> Kit for Filler<'a> {
    ghost use Rattle.std.specs.Prelude.{◌≡◌, ◌<◌, OnOk, None};
    ghost use Rattle.kmer_text.specs.Kmers.{IsKmerLength};
    ghost use Rattle.kmer_text.specs.Nodes.{bad_node};
    ghost use Rattle.bcl_buffer.specs.declared.buffer.State.TheVariants.{Filling};
    ghost use Rattle.kmer_walk.specs.Nodes.{nodes_of};
    ghost use Rattle.kmer_walk.specs.Fills.{Fills};

    ghost ready = { λ k. IsKmerLength k.k × (bad_node k.k k.lines.now ≡ None) × (k.rank < k.ranks) × (k.buffer.state ≡ Filling) };

    ghost step = { λ k l. OnOk l.filled (Fills k.k k.lines.now (nodes_of k.rank k.ranks k.lines.now) k.buffer l.buffer) };

    fn rank(&self) -> u32 {
        self.rank
    }

    fn part(&mut self) {
        self.filled = fill_block(&mut self.buffer, self.lines, self.k, self.rank, self.ranks);
    }
}
