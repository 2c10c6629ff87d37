//! Where a rank's block begins.

ghost use Rattle.std.specs.Prelude.{◌≡◌, ◌<◌, ◌≤◌, length};
ghost use Rattle.kmer_blocks.specs.Blocks.{begins_at};

use kmer_text::Lines;

/// The number of the first line of a rank's block, counted from 0, where the lines are dealt to so many ranks. The block
/// ends in front of the first line of the next rank's.
///
/// Condition: there is a rank. The rank may be that behind the last one, whose block would begin behind all lines.
pub fn first_of(lines: &Lines, rank: u32, ranks: u32) -> u32
    requires ranks { 0 < ranks }
    requires rank { rank ≤ ranks }
    ensures first { result ≡ begins_at rank ranks lines.now }
    ensures within { result ≤ length lines.now }
{
    (rank as u64 * lines.count() as u64 / ranks as u64) as u32
}
