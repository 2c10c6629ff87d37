//! Phases of passes over segments: what every container stands on.
//!
//! A container is a sequential object whose state lies in words that ranks share. Its history is the list of the calls
//! made on it, in the order in which they took effect. One caller has it alone, as a [`Home`]. To share it, the home
//! begins a phase under a [`Promise`], which says what calls the ranks will make (Brock, Buluç, Yelick, ICPP 2019): each
//! rank gets a [`Pass`], and a [`Lead`] that all ranks share ends the phase. Between two phases nobody holds a pass, so
//! the end of one is a barrier.
//!
//!     let (lead, passes) = home.begin::<Any, _>(alloc)?;        // a pass for each rank
//!     superstep_all(&rt, &mut kits, &Always);                   // each rank's part, side by side
//!     let (lead, passes) = lead.turn::<Any, Own, _, _>(alloc, passes)?;
//!     let home = lead.end::<Own, _>(passes);                       // the home has seen the whole history
//!
//! Its one contract for the layers above: whatever the container and the order of steps, there is one history, legal for
//! the sequential object. Each pass has seen a front of it, and its own rank's events there are those of its calls. What
//! a container shows for that is small: of each step, what its own words do, against the state and its own note
//! (`Moves`). The rest is proved here, once.
//!
//! In reading order:
//!
//! - `view`: what a seat knows. `specs/Views.antt` says how views change.
//! - `phased`: what a container says of itself, and `specs/Rule.antt` the rule that its words keep.
//! - `promise`: the nine promises.
//! - `home`, `lead`, `pass`: the three who hold seats. `specs/Parts.antt` says what a contract sees of them. `wraps`: a
//!   container's own pass, over that of the phase. `rested`: a pass between two calls, which is what `wraps` deals in.
//! - `begin`, `end`, `turn`: how a phase begins and ends, by `specs/Phases.antt` and, in the words that every container
//!   cites, `specs/Deals.antt`.
//! - `learns`, `steps`: the steps of a pass, and what each tells, by `specs/Told.antt`. `alone`: the steps of a home.
//!   `known`: how a home knows its words, and closes. `loose`: a home whose words need not fit.
//! - `specs/Stands.antt`: what the contract of every container's call cites. `specs/Found.antt`: what a pass has looked at.
//! - `flight`: a call in flight on an object of several words, and `specs/Flights.antt` where such words stand.
//! - `kit`, `gate`: supersteps. `carries`: passes out of kits. `lend`: the last of a
//!   list of passes, lent.
//! - `told`: the same in the words of the segments. `refused`: want of memory.
//!
//! `bcl_tally` is the smallest container. `bcl_gauge` is the smallest that sets its words right at the end of a phase. The
//! two use all of it.
#![tactic(auto)]

mod alone;
mod begin;
mod carries;
mod end;
mod flight;
mod gate;
mod home;
mod kit;
mod known;
mod lead;
mod learns;
mod lend;
mod loose;
mod pass;
mod phased;
mod promise;
mod refused;
mod rested;
mod steps;
#[cfg(test)]
mod sums;
#[cfg(test)]
mod tests;
mod told;
mod turn;
mod view;
mod wraps;

pub use carries::{Carries, passes_of};
pub use flight::Flight;
pub use gate::{Always, Gate};
pub use home::Home;
pub use kit::{Kit, superstep, superstep_all};
pub use known::Closed;
pub use lead::Lead;
pub use learns::Learns;
pub use lend::with_last;
pub use loose::Loose;
pub use pass::Pass;
pub use phased::{Grants, Phased, Settles};
pub use promise::{Add, Any, Find, FindInsert, Own, Pop, Promise, Push, PushPop, Read};
pub use refused::Refused;
pub use rested::Rested;
pub use view::{Role, View};
pub use wraps::Wraps;
