//! The count of the k-mers of lines of letters, over ranks that share a hash map.
//!
//! Its one contract for the layer above: `count` deals the lines to ranks that share a map. It answers the k-mers that occur
//! with the number of places at which each stands, in order, and the closed map, whose history is the book of the count
//! (`specs/Book.antt`).
//!
//! - `filler`, `filling`: each rank puts a one for each k-mer of its block of lines into its buffer, by `specs/Fills.antt`.
//! - `sorting`: how the pairs of the closed map are sorted.
//! - `over_ranks`: the count.
//!
//! What counts and the text of a count are says `kmer_rows`, which also writes the rows. How lines are dealt says
//! `kmer_blocks`.
#![tactic(auto)]

mod filler;
mod filling;
mod over_ranks;
mod sorting;
#[cfg(test)]
mod tests;

pub use over_ranks::{CountPlan, Counted, count};
