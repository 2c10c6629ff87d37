//! The buckets of a hash map: their control words, and the path that a key takes through them (Brock, Buluç, Yelick,
//! ICPP 2019: their hash map with open addressing).
//!
//! Its one contract for the layer above: a control word and its three fields determine each other, and a path has each
//! place once.
//!
//! - `control`: the state of a bucket, the home of its key and its readers, in one word.
//! - `path`: where the path of a key begins, whose the place is, and the places in their order.
#![tactic(auto)]

mod control;
mod path;
#[cfg(test)]
mod tests;

pub use control::{Control, State};
pub use path::{Path, home_rank, start, start_of_words};
