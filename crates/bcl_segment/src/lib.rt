//! Words that many ranks share, each rank with a segment of its own, reached by one-sided operations.
//!
//! After the global memory of the Berkeley Container Library (Brock, Buluç, Yelick, ICPP 2019): a global pointer names a
//! rank and an offset in its segment, and any rank gets, puts and changes the word there in one atomic step, in which
//! the owner of the segment takes no part. The ranks are threads of one host, and all words lie in one block.
//!
//! Its one contract for the layers above: each operation is one step under a rule. Who makes segments picks a [`Rule`],
//! a fact about the words and about what each seat knows, its view. A step asks that the rule allows it, which is a
//! fact about plain data, and tells what its caller asked to be told, a [`Tells`]. The rule holds before and after
//! every step of every thread.
//!
//!     let (segments, mut seat) = Segments::<Free>::new(alloc, layout, 1, words, &())?;
//!     let spot = Spot::At(GlobalPtr { rank: 1, offset: 2 });
//!     segments.put::<Brand>(&mut seat, spot, 5);
//!     let old = segments.fetch_add::<Brand>(&mut seat, spot, 2);
//!
//! - `layout`: where a word stands. `GlobalPtr`, `Layout`, `Spot`.
//! - `rule`: what a rule is, and `free` the one that allows every step.
//! - `seat`: what a thread steps with, and what it knows.
//! - `resting`, over `still`: a seat that is put by, which threads may share, as they may not share a seat.
//! - `tells`: what a step tells its caller.
//! - `segments`: how segments are made, and how a seat is cut in two and joined.
//! - `steps`: the operations. `specs/Allowed.antt` says what each asks of the rule, by the definitions on plain data in
//!   `specs/Steps.antt`.
//! - `rising`: a counter that only rises, the rule of a test, which is the shortest example of it all.
//!
//! Every step is sequentially consistent.
#![tactic(auto)]

mod free;
mod layout;
mod resting;
#[cfg(test)]
mod rising;
mod rule;
mod seat;
mod segments;
mod steps;
mod still;
mod tells;
#[cfg(test)]
mod tests;

pub use free::Free;
pub use layout::{GlobalPtr, Layout, Spot};
pub use resting::Resting;
pub use rule::Rule;
pub use seat::Seat;
pub use segments::Segments;
pub use tells::Tells;
