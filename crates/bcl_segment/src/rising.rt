//! A counter that only rises: a rule under which a step tells something.
ghost use Rattle.std.specs.Prelude.{◌≡◌, ◌<◌, ◌≤◌, IsTrue};
ghost use Rattle.bcl_segment.specs.Parts.{heads_of, view_of, IsSeatOf, IsSameSeat};
ghost use Rattle.bcl_segment.specs.Rising.{Reached, Looked};

use crate::{Rule, Seat, Segments, Spot, Tells};
use atomic_table::{Join, Split, TableRule};
use std::marker::Brand;

pub struct Rising;

impl TableRule<(), u64, ()> for Rising {
    ghost holds = { λ _ s. Reached s.words s.views };

    ghost first = { λ _. 0 };
}

impl Rule for Rising {
    type View = u64;

    type Key = ();
}

pub struct Looks;

impl Tells<u64> for Looks {
    ghost then = { λ _ _ _ v found w. Looked v found w };
}

/// The counter. It is no less than what the seat knows.
pub fn look(counter: &Segments<Rising>, seat: &mut Seat<Rising>) -> u64
    requires counter { 0 < heads_of counter.now }
    requires seat { IsSeatOf seat.old counter.now }
    ensures rises { view_of seat.old ≤ result }
    ensures known { view_of seat.new ≡ result }
    ensures same { IsSameSeat seat.old seat.new }
{
    counter.get::<Looks>(seat, Spot::Head(0))
}

/// Raises the counter where it is `from`, and tells whether it was.
pub fn raise(counter: &Segments<Rising>, seat: &mut Seat<Rising>, from: u64, to: u64) -> bool
    requires counter { 0 < heads_of counter.now }
    requires seat { IsSeatOf seat.old counter.now }
    requires more { from ≤ to }
    ensures known { IsTrue result → view_of seat.new ≡ to }
    ensures same { IsSameSeat seat.old seat.new }
{
    counter.cas::<Brand>(seat, Spot::Head(0), from, to).is_ok()
}
