//! Devices that bytes are read from and written to, each with a count of its faults.
//!
//! Its one contract for the layers above: `read_all` answers the bytes that a source had left, `write_all` gives a sink
//! just the bytes that it is passed, and where either fails the device's faults rose.
//!
//! - `device`: the traits `Source` and `Sink`, with what a contract sees of each.
//! - `whole`: `read_all` and `write_all`, the only two calls that work in pieces.
//! - `fault`: why bytes could not be read or written.
//! - `memory`: devices over memory that fail where a test tells them to.
//! - `adapters`: std's readers and writers as devices, which tell nothing of content. They are the trusted edge.
#![tactic(auto)]

mod adapters;
mod device;
mod fault;
mod memory;
#[cfg(test)]
mod tests;
mod whole;

pub use adapters::{StdSink, StdSource};
pub use device::{Sink, Source};
pub use fault::{Failed, ReadFault};
pub use memory::{MemSink, MemSource};
pub use whole::{PIECE, read_all, write_all};
