//! Who has begun a phase of a map, and ends it.

use crate::home::MapHome;
use crate::map::Map;
use crate::pass::MapPass;
use bcl_phase::{Grants, Lead, Phased, Promise, Refused, Settles};
use std::alloc::Global;

/// A map in a phase: each rank has a pass. Ranks share the lead by `&`.
#[derive(Drop)]
pub struct MapLead<K, V, L>
where
    Map<K, V, L>: Phased,
{
    pub lead: Lead<Map<K, V, L>>,
    /// How many pairs the passes of earlier phases have counted.
    pub(crate) pairs: usize,
}

/// How many pairs passes have counted as new.
fn new_pairs<P: Promise, K, V, L>(passes: &[MapPass<P, K, V, L>]) -> usize
where
    Map<K, V, L>: Phased,
{
    let mut new = 0usize;
    for pass in passes {
        new = new.wrapping_add(pass.stored);
    }
    new
}

impl<K, V, L> MapLead<K, V, L>
where
    Map<K, V, L>: Phased,
{
    ghost use Rattle.std.specs.Prelude.{IfOk, IfErr};
    ghost use Rattle.bcl_phase.specs.Deals.{AreAll, Ends, Turns};

    /// Ends the phase, and consumes its passes. The home has seen the whole history.
    ///
    /// It never refuses. Condition: the passes are all those of this lead, rank i at place i.
    pub fn end<P: Promise>(self, passes: Vec<MapPass<P, K, V, L>>) -> MapHome<K, V, L>
    where
        Map<K, V, L>: Grants<P> + Settles,
        requires all { AreAll (λ p. p.pass) self.lead passes.items }
        ensures ends { Ends (λ p. p.pass) P.CODE self.lead passes.items result.home }
    {
        let pairs = self.pairs.wrapping_add(new_pairs(&passes));
        MapHome {
            home: self.lead.end::<P, MapPass<P, K, V, L>>(passes),
            pairs,
        }
    }

    /// Ends the phase and begins the next, under another promise: the barrier between two supersteps.
    ///
    /// It is `end` and then `begin`. It refuses for want of memory alone, and hands back the home of `end`. Condition: as
    /// of `end`.
    pub fn turn<P: Promise, Q: Promise>(
        self,
        alloc: Global,
        passes: Vec<MapPass<P, K, V, L>>,
    ) -> Result<(MapLead<K, V, L>, Vec<MapPass<Q, K, V, L>>), Refused<MapHome<K, V, L>>>
    where
        Map<K, V, L>: Grants<P> + Grants<Q> + Settles,
        requires all { AreAll (λ p. p.pass) self.lead passes.items }
        ensures turns { IfOk result (λ r. Turns (λ p. p.pass) (λ p. p.pass) P.CODE Q.CODE self.lead passes.items r.0.lead r.1.items) }
        ensures refused { IfErr result (λ e. Ends (λ p. p.pass) P.CODE self.lead passes.items e.home.home) }
    {
        let pairs = self.pairs.wrapping_add(new_pairs(&passes));
        match self
            .lead
            .turn::<P, Q, MapPass<P, K, V, L>, MapPass<Q, K, V, L>>(alloc, passes)
        {
            Ok((lead, passes)) => Ok((MapLead { lead, pairs }, passes)),
            Err(refused) => Err(Refused {
                home: MapHome {
                    home: refused.home,
                    pairs,
                },
            }),
        }
    }
}
