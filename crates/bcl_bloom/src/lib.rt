//! A Bloom filter of keys, shared by ranks (Brock, Buluç, Yelick, ICPP 2019: their blocked filter).
//!
//! Its one contract for the layer above: each call is one event of the filter's history, which is legal for the filter
//! of `bcl_event`, and stands behind all that its pass had seen. So a key that was inserted, by whichever rank, is found.
//! An insertion is one `fetch_or`, and a find is one `get`.
//!
//! - `filter`: the sequential object, and what the words mean.
//! - `home`: who has a filter alone; how it is made, and how a phase begins.
//! - `lead`: who has begun a phase; how it ends, and turns into the next.
//! - `pass`: one rank's part, and its calls.
//! - `block`: where the block of a hash stands.
#![tactic(auto)]

mod block;
mod filter;
mod home;
mod lead;
mod pass;
#[cfg(test)]
mod tests;

pub use filter::Filter;
pub use home::FilterHome;
pub use lead::FilterLead;
pub use pass::FilterPass;
