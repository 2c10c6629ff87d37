//! The lines of an input, dealt to ranks in blocks.
//!
//! Its one contract for the layers above: `first_of` answers where a rank's block begins, and by `blocks_are_the_lines`
//! the blocks of all ranks, one after another, are the lines. So what the ranks do with the lines of their blocks is done
//! with each line once.
//!
//! - `first`: where a block begins, by `specs/Blocks.antt`.
//! - `laws`: that the blocks are the lines.
#![tactic(auto)]

mod first;
mod laws;
#[cfg(test)]
mod tests;

pub use first::first_of;
pub use laws::blocks_are_the_lines;
