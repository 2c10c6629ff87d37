//! Who has begun a phase of a filter, and ends it.

use crate::filter::Filter;
use crate::home::FilterHome;
use crate::pass::FilterPass;
use bcl_phase::{Grants, Lead, Phased, Promise, Refused, Settles};
use std::alloc::Global;

/// A filter in a phase: each rank has a pass. Ranks share the lead by `&`.
#[derive(Drop)]
pub struct FilterLead<K>
where
    Filter<K>: Phased,
{
    pub lead: Lead<Filter<K>>,
}

impl<K> FilterLead<K>
where
    Filter<K>: Phased,
{
    ghost use Rattle.std.specs.Prelude.{IfOk, IfErr};
    ghost use Rattle.bcl_phase.specs.Deals.{AreAll, Ends, Turns};

    /// Ends the phase, and consumes its passes. The home has seen the whole history.
    ///
    /// It never refuses. Condition: the passes are all those of this lead, rank i at place i.
    pub fn end<P: Promise>(self, passes: Vec<FilterPass<P, K>>) -> FilterHome<K>
    where
        Filter<K>: Grants<P> + Settles,
        requires all { AreAll (λ p. p.pass) self.lead passes.items }
        ensures ends { Ends (λ p. p.pass) P.CODE self.lead passes.items result.home }
    {
        FilterHome {
            home: self.lead.end::<P, FilterPass<P, K>>(passes),
        }
    }

    /// Ends the phase and begins the next, under another promise: the barrier between two supersteps.
    ///
    /// It is `end` and then `begin`. It refuses for want of memory alone, and hands back the home of `end`. Condition: as
    /// of `end`.
    pub fn turn<P: Promise, Q: Promise>(
        self,
        alloc: Global,
        passes: Vec<FilterPass<P, K>>,
    ) -> Result<(FilterLead<K>, Vec<FilterPass<Q, K>>), Refused<FilterHome<K>>>
    where
        Filter<K>: Grants<P> + Grants<Q> + Settles,
        requires all { AreAll (λ p. p.pass) self.lead passes.items }
        ensures turns { IfOk result (λ r. Turns (λ p. p.pass) (λ p. p.pass) P.CODE Q.CODE self.lead passes.items r.0.lead r.1.items) }
        ensures refused { IfErr result (λ e. Ends (λ p. p.pass) P.CODE self.lead passes.items e.home.home) }
    {
        match self
            .lead
            .turn::<P, Q, FilterPass<P, K>, FilterPass<Q, K>>(alloc, passes)
        {
            Ok((lead, passes)) => Ok((FilterLead { lead }, passes)),
            Err(refused) => Err(Refused {
                home: FilterHome { home: refused.home },
            }),
        }
    }
}
