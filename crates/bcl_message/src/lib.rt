//! Why a run ends without its text, and what the program says then.
//!
//! Its one contract for the layer above: each error of a lower layer becomes a `Stop` by `?`, a `Stop` has its status, and
//! `tell` gives a sink just the message of a `Stop`, unless the sink fails.
//!
//! - `refusal`: why an input is refused.
//! - `stop`: why a run ends without its text, and the status that says so.
//! - `message`: what the program says of a run without a text.
#![tactic(auto)]

mod message;
mod refusal;
mod stop;
#[cfg(test)]
mod tests;

pub use message::tell;
pub use refusal::Refusal;
pub use stop::Stop;
