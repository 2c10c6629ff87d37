//! What every crate of the library shares: values as words, laws by which values become one, want of memory.
//!
//! Its one contract for the layers above: an [`Object`] and its eight words determine each other. Words are read as the
//! value that has them, or refused exactly where no value has.
//!
//! - `object`: values that can stand in a container, and their laws.
//! - `numbers`, `bytes`, `pair`: the types that are objects.
//! - `merge_law`: laws by which two values become one.
//! - `laws`: what follows for generic code.
//! - `hashing`: the hash of words, and of a key's own.
//! - `memory`: want of memory as an error, which every error of std's that says the same turns into by `?`.
#![tactic(auto)]

mod bytes;
mod hashing;
mod laws;
mod memory;
mod merge_law;
mod numbers;
mod object;
mod pair;
#[cfg(test)]
mod tests;

pub use bytes::{Bytes16, Bytes64};
pub use hashing::{hash, key_hash};
pub use laws::{any_order, have_same_words, read_back};
pub use memory::NoMemory;
pub use merge_law::MergeLaw;
pub use numbers::zeros_from;
pub use object::Object;
pub use pair::Pair;
