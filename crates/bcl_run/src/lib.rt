//! The program: from the words of a command line and an input to a text and a status.
//!
//! Its one contract for the layer above is that of `top`: whenever the status is 0, what was written is the stated
//! function of the words and of all that the source had left, and the book of the shared map is that of a count of it or of
//! its contigs; and each other status says why nothing more was written.
//!
//! - `program`: `top`, the whole program over its devices, and `top_own`, the same where no rank waits.
//! - `answer`: the text that an input asks for with its book, or why it is refused.
//! - `book`: the book of a run.
//!
//! What the words ask for says `bcl_settings`, and what is said of a run without a text `bcl_message`.
#![tactic(auto)]

mod answer;
mod book;
mod program;
#[cfg(test)]
mod tests;

pub use answer::MAX_BYTES;
pub use bcl_message::Refusal;
pub use bcl_settings::{Choice, Settings, names_any, reads_once, settings_of};
pub use book::Book;
pub use program::{Ended, top, top_own};
