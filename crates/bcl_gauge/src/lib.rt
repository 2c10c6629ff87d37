//! The smallest container whose words a phase may leave in disorder: one number that ranks lower, and that never falls below
//! a floor.
//!
//! To lower it is one fetch_min, so within a phase the word may fall below the floor. It is lifted again as the phase ends.
#![tactic(auto)]

mod calls;
mod gauge;
mod pass;
#[cfg(test)]
mod tests;

pub use calls::{end, open, read, turn};
pub use gauge::{Call, Gauge, Shape};
pub use pass::GaugePass;
