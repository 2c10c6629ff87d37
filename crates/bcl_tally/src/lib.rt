//! The smallest container: one number for each rank. It shows the parts of a phase in use, and tests them.
//!
//! - `tally`: its calls, replies and notes, and its rule.
//! - `pass`: an addition of one step under `Any`, and an exchange of two steps under `Own`, with a call in flight between
//!   them.
//! - `guarded`: an addition by a get and an exchange, which may be answered that others are at work.
//! - `calls`: how it is opened, and the steps of a home, also of one whose words are loose.
//! - `adder`: a rank's part in a superstep.
#![tactic(auto)]

mod adder;
mod calls;
mod guarded;
mod pass;
mod tally;
#[cfg(test)]
mod tests;

pub use adder::Adder;
pub use calls::{clear, open, read, read_both, swap_both, try_word};
pub use guarded::{Seen, TryAdd};
pub use pass::TallyPass;
pub use tally::{Call, Note, Reply, Tally};
