//! The text of a count, from counts that are sorted, however they were counted.
//!
//! Its one contract for the layer above: `push_rows` writes a row for each entry of a list that is counted often enough,
//! `rows_over_ranks` makes the same text by ranks that each write a part, and by `rows_are_the_text` the rows of all counts
//! of the lines are the text of the count, where the minimum is at least 1.
//!
//! - `rows`: the rows of a list of counts.
//! - `over_ranks`: the same, written side by side.
//! - `law`: that they are the text of the count.
#![tactic(auto)]

mod law;
mod over_ranks;
mod rows;
#[cfg(test)]
mod tests;

pub use law::rows_are_the_text;
pub use over_ranks::rows_over_ranks;
pub use rows::push_rows;
