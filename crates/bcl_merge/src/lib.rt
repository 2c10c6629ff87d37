//! Laws by which two values become one.
//!
//! Its one contract for the layers above: each law comes with a function that answers it, so that the words of the
//! function's result are what the law says.
//!
//! - `sum`: the sum modulo 2^64.
//! - `least`: of two values the one whose list of words comes first.
//! - `merger`: a function that answers a law, to be handed to what merges by it.
#![tactic(auto)]

mod least;
mod merger;
mod sum;
#[cfg(test)]
mod tests;

pub use least::{LeastWords, least_words};
pub use merger::Merger;
pub use sum::{Sum, wrapping_sum};
