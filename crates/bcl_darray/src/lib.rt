//! An array of items, shared by ranks: each rank has a block of its own (Brock, Buluç, Yelick, ICPP 2019).
//!
//! Its one contract for the layer above: each call is one event of the array's history, which is legal for the array of
//! `bcl_event`, and stands behind all that its pass had seen. Under `Any`, on numbers, a call is one atomic step. Under
//! `Own` and `Read` an item of several words is read whole, with loads alone, as no other rank puts words of it.
//!
//! - `array`: the sequential object, what is fixed, and calls in flight. `specs/Fits.antt` says what the words mean.
//! - `home`: who has an array alone; how it is made, and how a phase begins.
//! - `lead`: who has begun a phase; how it ends, and turns into the next.
//! - `pass`: one rank's part.
//! - `any`, `own`, `read`: the calls of each promise.
//! - `item`: an item of several words, got or put word by word.
#![tactic(auto)]

mod any;
mod array;
mod home;
mod item;
mod lead;
mod own;
mod pass;
mod read;
#[cfg(test)]
mod tests;
#[cfg(test)]
mod tutorial;

pub use array::{Array, Note, Shape, Words};
pub use home::ArrayHome;
pub use lead::ArrayLead;
pub use pass::ArrayPass;
