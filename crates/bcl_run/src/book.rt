//! The book of a run.

use bcl_map::ClosedMap;
use bcl_merge::{LeastWords, Sum};
use kmer_text::{Kmer, Node};

/// The book of the map that the ranks of a run shared: its history, with the map as it was closed. A run without a text has
/// none.
#[derive(Drop)]
pub enum Book {
    None,
    /// The map that a count merged its k-mers in.
    Count(ClosedMap<Kmer, u64, Sum>),
    /// The map that contigs merged their nodes in, and found them.
    Nodes(ClosedMap<Kmer, Node, LeastWords>),
}
