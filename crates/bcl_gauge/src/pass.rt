//! One rank's part in a phase of a gauge, and its call.

ghost use Rattle.bcl_phase.specs.Deals.{IsIn, Stands, Makes};
ghost use Rattle.bcl_gauge.specs.declared.gauge.Call.TheVariants.{Lower};

use crate::gauge::{Call, Gauge};
use bcl_phase::{Any, Lead, Promise, Rested, Wraps};
use bcl_segment::Spot;
use std::marker::Brand;

/// One rank's part in a phase of a gauge under the promise P.
#[derive(Drop)]
pub struct GaugePass<P: Promise> {
    pub pass: Rested<Gauge, P>,
}

impl<P: Promise> Wraps for GaugePass<P> {
    type Inner = Rested<Gauge, P>;

    ghost inner = { λ pass. pass.pass };

    fn wrap(it: Rested<Gauge, P>) -> Self {
        GaugePass { pass: it }
    }

    fn into_inner(self) -> Rested<Gauge, P> {
        self.pass
    }
}

impl GaugePass<Any> {
    /// Lowers the number to this, or to the floor if that is above. One fetch_min.
    pub fn lower(&mut self, lead: &Lead<Gauge>, n: u64)
        requires of { IsIn self.old.pass lead.now }
        ensures stands { Stands lead.now self.old.pass self.new.pass (Lower n) tt }
        ensures of { IsIn self.new.pass lead.now }
        ensures cost { Makes 0 0 1 self.old.pass self.new.pass }
    {
        let pass = &mut self.pass.pass;
        pass.fetch_min::<Brand, u64>(lead, Spot::Head(0), n, &n);
    }
}
