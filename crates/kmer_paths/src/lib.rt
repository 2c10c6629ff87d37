//! The paths that walks take over lines of nodes, whatever finds the next line of each.
//!
//! Its one contract for the layer above: the definitions of `specs/` say which lines are starts, what the contig of each
//! is and which line contradicts an earlier one.
//!
//! - `key`: the key behind a node.
//! - `text`: the text of contigs.
//! - `fault`: why lines of nodes have no contigs.
//! - `laws`: what the definitions mean, in other words than their own.
#![tactic(auto)]

mod fault;
mod key;
mod laws;
#[cfg(test)]
mod tests;
mod text;

pub use fault::WalkFault;
pub use key::{NO_NEIGHBOUR, key_behind};
pub use laws::{texts_are_ordered, walks_are_longest};
pub use text::{MAX_TEXT, text_of};
