//! A hash map that ranks share, with buckets at each of them (Brock, Buluç, Yelick, ICPP 2019: their hash map with open
//! addressing).
//!
//! Its one contract for the layer above: each call is one event of the map's history, which is legal for the map of
//! `bcl_event`, and stands behind all that its pass had seen. So no pair is lost, whichever ranks meet at a bucket, and a
//! map that is closed has each pair that its history leaves, once.
//!
//! What ranks may do at the same time makes a call cheap. Under `Find` nobody writes, so a find is gets alone. Under `Own`
//! each rank works on the keys whose home it is: it makes one exchange for each free bucket that it meets on the path of
//! a new key, and none where the key is there.
//!
//! - `map`: the sequential object. `specs/Cells.antt` says what a bucket is, `specs/Fits.antt` what the words mean, and
//!   docs/PROTOCOLS.md the same in prose.
//! - `room`: how many buckets a map of so many pairs should have, by `specs/Room.antt`.
//! - `shape`, `note`: what is fixed of a map, and what a pass knows between two of its steps, by `specs/Notes.antt`.
//! - `home`, `lead`, `pass`: who has a map alone, who has begun a phase, and one rank's part. `specs/Parts.antt` says what
//!   a contract sees of them.
//! - `control`, `walk`: control words, and the way from bucket to bucket.
//! - `walking`, `look`, `reach`: the calls that walk along a key's path, their look at one bucket, and their walk.
//! - `find`: a find.
//! - `own`: the calls under `Own`. An insertion and a merge (`merge`) store a value (`storing`) in the place that they find
//!   or take (`place`) by the same puts (`put`), and are answered what `inserted` has.
//! - `close`: a map that is closed. `pairs` lists what it has, by `specs/Closed.antt`.
//! - `phases`: the first phase of a map, the next, and the end of the last, as a program of concrete types calls them.
//!
//! `tutorial` is a whole program on it, which docs/TUTORIAL.md goes through.
#![tactic(auto)]

mod close;
mod control;
mod find;
mod home;
mod inserted;
mod lead;
mod look;
mod map;
mod merge;
mod note;
mod own;
mod pairs;
mod pass;
mod phases;
mod place;
mod put;
mod reach;
mod room;
mod shape;
mod storing;
#[cfg(test)]
mod tests;
#[cfg(test)]
mod tutorial;
mod walk;
mod walking;

pub use close::ClosedMap;
pub use home::MapHome;
pub use inserted::Inserted;
pub use lead::MapLead;
pub use map::Map;
pub use note::{Before, Claim, Lock, Note, Words};
pub use pass::MapPass;
pub use phases::{begun, closed, turned};
pub use room::buckets_for;
pub use shape::Shape;
pub use walk::Start;
