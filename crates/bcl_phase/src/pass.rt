//! One rank's part in a phase.

ghost use Rattle.std.specs.Prelude.{◌≡◌, ◌<◌};
ghost use Rattle.bcl_event.specs.History.{of};
ghost use Rattle.bcl_segment.specs.Parts.{view_of};
ghost use Rattle.bcl_phase.specs.Seats.{IsPassSeat, IsLaidBy};

use crate::{Phased, Promise};
use bcl_segment::{Layout, Seat};
use std::marker::PhantomData;

/// One rank's part in a phase under the promise P. It may go to another thread.
#[derive(Drop)]
pub struct Pass<R: Phased, P: Promise> {
    pub(crate) seat: Seat<R>,
    pub(crate) rank: u32,
    pub(crate) layout: Layout,
    promise: PhantomData<P>,
    pub ghost pass: { IsPassSeat P.CODE rank seat },
    pub ghost within: { rank < layout.ranks },
    pub ghost own: { of (view_of seat).rank (view_of seat).seen ≡ (view_of seat).mine },
    pub ghost laid: { IsLaidBy R.sound R.heads R.layout (view_of seat).key layout },
}

impl<R: Phased, P: Promise> Pass<R, P> {
    ghost use Rattle.bcl_phase.specs.Parts.{pass_view, pass_layout};

    pub(crate) fn seated(seat: Seat<R>, rank: u32, layout: Layout) -> Pass<R, P>
        requires pass { IsPassSeat P.CODE rank seat }
        requires within { rank < layout.ranks }
        requires own { of (view_of seat).rank (view_of seat).seen ≡ (view_of seat).mine }
        requires laid { IsLaidBy R.sound R.heads R.layout (view_of seat).key layout }
        ensures seat { result.seat ≡ seat }
        ensures layout { result.layout ≡ layout }
    {
        Pass {
            seat,
            rank,
            layout,
            promise: PhantomData,
        }
    }

    pub(crate) fn into_seat(self) -> Seat<R>
        ensures seat { result ≡ self.seat }
    {
        self.seat
    }

    /// The number of this rank, from 0.
    pub fn rank(&self) -> u32
        ensures rank { result ≡ (pass_view self.now).rank }
        ensures within { result < (pass_layout self.now).ranks }
    {
        self.rank
    }

    /// How many ranks there are, and how many words the segment of each has.
    pub fn layout(&self) -> Layout
        ensures layout { result ≡ pass_layout self.now }
    {
        self.layout
    }
}
