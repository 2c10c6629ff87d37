//! A call that may be answered that others are at work: an addition to a number that is even.

ghost use Rattle.std.specs.Prelude.{◌≡◌, ◌<◌};
ghost use Rattle.bcl_phase.specs.Parts.{lead_key};
ghost use Rattle.bcl_tally.specs.Guarded.{Tried};

use crate::pass::{TallyPass, number_of};
use crate::tally::{Call, Tally};
use bcl_phase::{Any, Lead};
use std::marker::Brand;

/// The number of a place as it was got, and as it was found last.
#[derive(Clone, Copy, Debug, PartialEq, Eq)]
pub struct Seen {
    pub first: u64,
    pub second: u64,
}

impl Seen {
    fn once(number: u64) -> Seen
        ensures once { (result.first ≡ number) × (result.second ≡ number) }
    {
        Seen {
            first: number,
            second: number,
        }
    }
}

/// What became of a try.
#[derive(Clone, Copy, Debug, PartialEq, Eq)]
pub enum TryAdd {
    /// The number was added to, and is what it was.
    Added(u64),
    /// Nothing was changed: the number was odd, or another changed it in between.
    Busy(Seen),
}

impl TallyPass<Any> {
    ghost use Rattle.bcl_tally.specs.Parts.{pass_view, IsOf};

    /// Adds to the number of a rank where it is even: a get, and then an exchange.
    ///
    /// `Busy` has equal numbers where the number got is odd, and no exchange was made. It has different ones where the
    /// exchange was lost.
    pub fn try_add(&mut self, lead: &Lead<Tally>, place: u32, n: u64) -> TryAdd
        requires of { IsOf self.old lead.now }
        requires place { place < lead_key lead.now }
        ensures tried { Tried (lead_key lead.now) place n (pass_view self.old) (pass_view self.new) result }
        ensures of { IsOf self.new lead.now }
    {
        let number = number_of(lead, place);
        let pass = &mut self.pass.pass;
        let first = pass.get::<Brand, ()>(lead, number, &());
        if first % 2 == 1 {
            return TryAdd::Busy(Seen::once(first));
        }
        let sum = first.wrapping_add(n);
        match pass.cas::<Brand, (Call, u64)>(
            lead,
            number,
            first,
            sum,
            &(Call::Add { place, n }, first),
        ) {
            Ok(was) => TryAdd::Added(was),
            Err(second) => TryAdd::Busy(Seen { first, second }),
        }
    }
}
