//! Pairs that wait for the rank of their key's home.
//!
//! A rank collects pairs for other ranks in a buffer, which has a lane for each. At home the buffers exchange their lanes,
//! and each rank then has the pairs of its own keys. It drains its buffer into a map: each pair is merged once, in order,
//! and which merge found no bucket is said. A flush is both for all ranks; its contract says what is merged, and nothing of
//! how the pairs come to the ranks.
//!
//! - `lane`: items in their order, taken from the front.
//! - `buffer`: a buffer, and what its lanes have.
//! - `exchanging`: the exchange of all buffers' lanes, by `specs/Exchanges.antt`. What its pieces say of one another is in
//!   `specs/Turning.antt`.
//! - `draining`: a buffer's pairs, merged into a map by the rank of their home, by `specs/Drains.antt`.
//! - `flushing`: the pairs of all buffers, merged once each by the rank of their home, by `specs/Flushes.antt`.
#![tactic(auto)]

mod buffer;
mod draining;
mod exchanging;
mod flushing;
mod lane;
#[cfg(test)]
mod tests;
#[cfg(test)]
mod tutorial;

pub use buffer::{Buffer, State};
pub use draining::Drained;
pub use exchanging::exchange;
pub use flushing::flush;
