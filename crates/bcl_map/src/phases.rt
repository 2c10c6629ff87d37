//! The phases of a map, with want of memory as an error: what a program of concrete types calls, since a function of concrete
//! types alone that begins a phase and ends it is more than the borrow checker covers.

ghost use Rattle.std.specs.Prelude.{◌≡◌, Some, IfOk};
ghost use Rattle.bcl_phase.specs.Deals.{AreAll, Begins, Turns};
ghost use Rattle.bcl_map.specs.Parts.{home_view, home_key, closed_view};

use crate::close::ClosedMap;
use crate::home::MapHome;
use crate::lead::MapLead;
use crate::map::Map;
use crate::pass::MapPass;
use bcl_phase::{Grants, Phased, Promise, Settles};
use bcl_words::{MergeLaw, NoMemory, Object};
use std::alloc::Global;

/// Begins a phase of a map: the lead, and as many passes as there are ranks, rank i at place i.
///
/// It is `MapHome::begin` for a caller who wants no home back: it refuses for want of memory alone, and then the map is gone.
pub fn begun<P: Promise, K, V, L>(
    alloc: Global,
    home: MapHome<K, V, L>,
) -> Result<(MapLead<K, V, L>, Vec<MapPass<P, K, V, L>>), NoMemory>
where
    Map<K, V, L>: Phased + Grants<P>,
    ensures begins { IfOk result (λ r. Begins (λ p. p.pass) P.CODE home.home r.0.lead r.1.items) }
{
    Ok(home.begin::<P>(alloc)?)
}

/// Ends a phase of a map and begins the next, under another promise.
///
/// It is `MapLead::turn` for a caller who wants no home back: it refuses for want of memory alone, and then the map is gone.
/// Condition: the passes are all those of the lead, rank i at place i.
pub fn turned<P: Promise, Q: Promise, K, V, L>(
    alloc: Global,
    lead: MapLead<K, V, L>,
    passes: Vec<MapPass<P, K, V, L>>,
) -> Result<(MapLead<K, V, L>, Vec<MapPass<Q, K, V, L>>), NoMemory>
where
    Map<K, V, L>: Phased + Grants<P> + Grants<Q> + Settles,
    requires all { AreAll (λ p. p.pass) lead.lead passes.items }
    ensures turns { IfOk result (λ r. Turns (λ p. p.pass) (λ p. p.pass) P.CODE Q.CODE lead.lead passes.items r.0.lead r.1.items) }
{
    Ok(lead.turn::<P, Q>(alloc, passes)?)
}

/// Closes a map: its pairs are listed, and its words given back.
///
/// It is `MapHome::close` for a caller who wants no home back: it refuses for want of memory alone, and then the map is gone.
pub fn closed<K: Object, V: Object, L: MergeLaw<V>>(
    alloc: Global,
    home: MapHome<K, V, L>,
) -> Result<ClosedMap<K, V, L>, NoMemory>
    ensures book { IfOk result (λ c. ((closed_view c).seen ≡ (home_view home).seen) × ((closed_view c).key ≡ Some (home_key home))) }
{
    Ok(home.close(alloc)?)
}
