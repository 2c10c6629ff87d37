//! What the words of a command line ask for.
//!
//! Its one contract for the layer above is that of `settings_of`: it reads words exactly where they spell a mode with its
//! numbers and options, these in any order, and what they ask for is offered. It takes no memory, since it gets no
//! allocator.
//!
//! `specs/Settings.antt` has the whole grammar, of which `IsOffered` says what is offered so far.
//!
//! - `settings`: the settings, and the words that ask for them.
//! - `mode`: a mode and its numbers.
//! - `options`: the options behind a mode.
//! - `number`: a number in a word.
#![tactic(auto)]

mod mode;
mod number;
mod options;
mod settings;
#[cfg(test)]
mod tests;

pub use settings::{Choice, Settings, names_any, reads_once, settings_of};
