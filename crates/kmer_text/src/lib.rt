//! The text of an input: its lines, and their k-mers.
//!
//! Its one contract for the layers above: a line's windows are the runs of K letters of the line, a `Kmer` is the number
//! that such a run stands for, and a line that isn't of letters alone is named.
//!
//! - `lines`: a text, cut into its lines.
//! - `kmer`: a word of K letters as a number.
//! - `windows`: the k-mers of a line, one after another.
//! - `check`: whether lines have letters alone, and how many windows there are.
//! - `node`: lines of a key and its extensions.
//! - `objects`: k-mers and nodes as words.
//! - `fault`: what is wrong with a line.
//! - `order`: that the words of K letters, as the definitions list them, are all of them in byte order.
#![tactic(auto)]

mod check;
mod fault;
mod kmer;
mod lines;
mod node;
mod objects;
mod order;
#[cfg(test)]
mod tests;
mod windows;

pub use check::{LetterFault, MAX_WINDOWS, check_letters};
pub use fault::{InputFault, Kind};
pub use kmer::{Kmer, MAX_K, window};
pub use lines::{CutFault, Lines, MAX_LINES};
pub use node::{Node, check_nodes, node_of};
pub use order::words_rise;
pub use windows::Windows;
