//! The second program of docs/TUTORIAL.md: ranks index a list side by side, and keys are looked up in the index.

ghost use Rattle.std.specs.Prelude.{◌≡◌, ◌+◌, ℕ, length, IfOk};
ghost use mathlib.Core.Option.{some};
ghost use lib.ListN.{get_elem?};
ghost use Rattle.bcl_phase.specs.Deals.{view, IsIn, AreOf};

use crate::{Inserted, Map, MapHome, MapLead, MapPass, begun, closed, turned};
use bcl_merge::Sum;
use bcl_phase::{Always, Carries, Find, Kit, Own, Phased, passes_of, superstep_all};
use std::alloc::{AllocError, Global};
use std::marker::Sync;
use std::test::Fail;
use std::thread::Threads;

/// One rank's part: it stores the place of each key of a list that is its own.
#[derive(Drop)]
pub(crate) struct Indexer<'a, K, V, L>
where
    Map<K, V, L>: Phased,
{
    lead: &'a MapLead<K, V, L>,
    pass: MapPass<Own, K, V, L>,
    keys: &'a [K],
    /// How many keys found no bucket.
    pub(crate) full: u64,
}

impl<'a> Kit for Indexer<'a, u64, u64, Sum> {
    ghost ready = { λ k. IsIn k.pass.pass k.lead.now.lead };

    ghost step = { λ k l. (l.lead ≡ k.lead) × IsIn l.pass.pass k.lead.now.lead × ((view l.pass.pass).rank ≡ (view k.pass.pass).rank) };

    fn rank(&self) -> u32 {
        self.pass.rank()
    }

    fn part(&mut self) {
        let mut place = 0;
        for key in self.keys {
            if self.pass.is_mine(key)
                && self.pass.insert(self.lead, key, &place) == Inserted::Full
            {
                self.full = self.full.wrapping_add(1);
            }
            place += 1;
        }
    }
}

impl<'a> Carries for Indexer<'a, u64, u64, Sum> {
    type Pass = MapPass<Own, u64, u64, Sum>;

    ghost pass = { λ k. k.pass };

    fn into_pass(self) -> MapPass<Own, u64, u64, Sum> {
        self.pass
    }
}

// An indexer for each pass, the last rank first.
pub(crate) fn indexers<'a>(
    alloc: Global,
    lead: &'a MapLead<u64, u64, Sum>,
    mut passes: Vec<MapPass<Own, u64, u64, Sum>>,
    keys: &'a [u64],
) -> Result<Vec<Indexer<'a, u64, u64, Sum>>, AllocError>
    requires passes { AreOf (λ p. p.pass) lead.now.lead passes.items }
    ensures all { IfOk result (λ kits. length kits.items ≡ length passes.items) }
    ensures kits { IfOk result (λ kits. (i : ℕ) (k : _) → get_elem? kits.items i ≡ some k → (k.lead.now ≡ lead.entry.now) × IsIn k.pass.pass lead.entry.now.lead × ((view k.pass.pass).rank + i + 1 ≡ length passes.items)) }
{
    let mut kits = Vec::new(alloc);
    while let Some(pass) = passes.pop() {
        kits.push(Indexer {
            lead,
            pass,
            keys,
            full: 0,
        })?;
    }
    Ok(kits)
}

// What an index of a list says of two keys, and how many keys it has.
fn look_up<H: Threads + Sync>(
    rt: &H,
    alloc: Global,
    keys: &[u64],
    first: &u64,
    second: &u64,
) -> Result<([Option<u64>; 2], usize), Fail> {
    // Four ranks with eight buckets each.
    let home = MapHome::<u64, u64, Sum>::new(alloc, 4, 8)?;

    // Each rank gets a pass, under the promise that it works on the keys whose home it is.
    let (lead, passes) = begun(alloc, home)?;

    // Each rank goes through the whole list, in a thread of its own.
    let mut kits = indexers(alloc, &lead, passes, keys)?;
    superstep_all(rt, &mut kits, &Always);

    // No rank has a pass after this: it is the barrier.
    let passes = passes_of(alloc, &lead.lead, kits)?;
    let (lead, mut passes) = turned::<_, Find, _, _, _>(alloc, lead, passes)?;

    // Under `Find` every rank may find every key, with plain loads.
    let Some(mut pass) = passes.pop() else {
        return Err(Fail::new("no pass"));
    };
    let found = [pass.find(&lead, first), pass.find(&lead, second)];
    passes.push(pass)?;

    // The home has seen the whole history. A closed map has its pairs.
    let count = closed(alloc, lead.end::<Find>(passes))?.entries().len();
    Ok((found, count))
}

#[test]
fn places_are_stored_side_by_side(rt: HostRuntime) -> Result<(), Fail> {
    let answer = look_up(&rt, rt.alloc(), &[20, 7, 20, 3], &20, &5)?;
    assert_eq!(rt; answer, ([Some(2), None], 3));
    Ok(())
}
