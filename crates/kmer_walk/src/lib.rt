//! Contigs over the lines of nodes of a text, by ranks that share a map of their keys.
//!
//! Its one contract for the layer above is that of `contigs`: the contigs of the lines, in byte order, with a book that has
//! each check and each walk; or the first line whose extensions differ from those of the first line of its key; or that
//! the contigs are too long. What these are say the definitions of `kmer_paths`.
//!
//! - `over_ranks`: `contigs`.
//! - `filling`, `filler`: a buffer for each rank, with the nodes of its block of lines.
//! - `storing`: the map of the nodes of all lines.
//! - `nodes`: that map, and its finds.
//! - `checking`, `checker`: each line against the first line of its key, and the starts.
//! - `walking`, `walker`, `trail`: the walk from each start.
//! - `gathering`: the contigs of all ranks in byte order.
#![tactic(auto)]

mod checker;
mod checking;
mod filler;
mod filling;
mod gathering;
mod nodes;
mod over_ranks;
mod storing;
#[cfg(test)]
mod tests;
mod trail;
mod walker;
mod walking;

pub use kmer_paths::{MAX_TEXT, WalkFault, text_of, texts_are_ordered, walks_are_longest};
pub use over_ranks::{Walked, contigs};
