//! A seat that its owner isn't stepping with.

ghost use Rattle.std.specs.Prelude.{◌≡◌, []};

use crate::seat::Slotless;
use crate::still::Still;
use crate::{Rule, Seat};

/// A seat that has no step to make for a time. Unlike a seat it may be shared: a `&` to it shows nothing.
///
/// A contract sees the seat that it was, and will be.
#[derive(Drop)]
pub struct Resting<R: Rule> {
    pub(crate) still: SlotlessStill<R::View>,
}

#[derive(Drop)]
pub(crate) struct SlotlessStill<V> {
    pub(crate) still: Still<(), V>,
    ghost slotless: { still.seat.me.1 ≡ [] },
}

impl<R: Rule> Seat<R> {
    ghost use Rattle.bcl_segment.specs.Resting.{IsRested};

    /// Puts the seat by. It makes no step.
    pub fn rest(self) -> Resting<R>
        ensures seat { IsRested self result }
    {
        let Slotless { seat } = self.inner;
        Resting {
            still: SlotlessStill {
                still: Still::new(seat),
            },
        }
    }
}

impl<R: Rule> Resting<R> {
    ghost use Rattle.bcl_segment.specs.Resting.{IsRested};

    /// Takes the seat up again. It makes no step.
    pub fn wake(self) -> Seat<R>
        ensures seat { IsRested result self }
    {
        let SlotlessStill { still } = self.still;
        Seat {
            inner: Slotless {
                seat: still.into_seat(),
            },
        }
    }
}
