//! Who has begun a phase of an array, and ends it.

use crate::array::Array;
use crate::home::ArrayHome;
use crate::pass::ArrayPass;
use bcl_phase::{Grants, Lead, Phased, Promise, Refused, Settles};
use std::alloc::Global;

/// An array in a phase: each rank has a pass. Ranks share the lead by `&`.
#[derive(Drop)]
pub struct ArrayLead<T>
where
    Array<T>: Phased,
{
    pub lead: Lead<Array<T>>,
}

impl<T> ArrayLead<T>
where
    Array<T>: Phased,
{
    ghost use Rattle.std.specs.Prelude.{IfOk, IfErr};
    ghost use Rattle.bcl_phase.specs.Deals.{AreAll, Ends, Turns};

    /// Ends the phase, and consumes its passes. The home has seen the whole history.
    ///
    /// It never refuses. Condition: the passes are all those of this lead, rank i at place i.
    pub fn end<P: Promise>(self, passes: Vec<ArrayPass<P, T>>) -> ArrayHome<T>
    where
        Array<T>: Grants<P> + Settles,
        requires all { AreAll (λ p. p.pass) self.lead passes.items }
        ensures ends { Ends (λ p. p.pass) P.CODE self.lead passes.items result.home }
    {
        ArrayHome {
            home: self.lead.end::<P, ArrayPass<P, T>>(passes),
        }
    }

    /// Ends the phase and begins the next, under another promise: the barrier between two supersteps.
    ///
    /// It is `end` and then `begin`. It refuses for want of memory alone, and hands back the home of `end`. Condition: as
    /// of `end`.
    pub fn turn<P: Promise, Q: Promise>(
        self,
        alloc: Global,
        passes: Vec<ArrayPass<P, T>>,
    ) -> Result<(ArrayLead<T>, Vec<ArrayPass<Q, T>>), Refused<ArrayHome<T>>>
    where
        Array<T>: Grants<P> + Grants<Q> + Settles,
        requires all { AreAll (λ p. p.pass) self.lead passes.items }
        ensures turns { IfOk result (λ r. Turns (λ p. p.pass) (λ p. p.pass) P.CODE Q.CODE self.lead passes.items r.0.lead r.1.items) }
        ensures refused { IfErr result (λ e. Ends (λ p. p.pass) P.CODE self.lead passes.items e.home.home) }
    {
        match self
            .lead
            .turn::<P, Q, ArrayPass<P, T>, ArrayPass<Q, T>>(alloc, passes)
        {
            Ok((lead, passes)) => Ok((ArrayLead { lead }, passes)),
            Err(refused) => Err(Refused {
                home: ArrayHome { home: refused.home },
            }),
        }
    }
}
