//! The program of docs/TUTORIAL.md: ranks count votes side by side, and one of them reads the counts.

ghost use Rattle.std.specs.Prelude.{◌≡◌, ◌≤◌, ◌<◌, ◌+◌, ℕ, length, IfOk};
ghost use Rattle.std.specs.List.{All};
ghost use mathlib.Core.Option.{some};
ghost use lib.ListN.{get_elem?};
ghost use Rattle.bcl_darray.specs.Array.{size};
ghost use Rattle.bcl_darray.specs.Parts.{lead_key, lead_layout, pass_view, IsOf};

use crate::{ArrayHome, ArrayLead, ArrayPass};
use bcl_phase::{Always, Any, Carries, Kit, Read, passes_of, superstep_all};
use std::alloc::{AllocError, Global};
use std::test::Fail;

/// One rank's part: it votes for a candidate.
#[derive(Drop)]
struct Voter<'a> {
    lead: &'a ArrayLead<u64>,
    pass: ArrayPass<Any, u64>,
    candidate: u32,
}

impl<'a> Kit for Voter<'a> {
    ghost ready = { λ k. IsOf k.pass k.lead.now × (k.candidate < size (lead_key k.lead.now)) };

    ghost step = { λ k l. (l.lead ≡ k.lead) × IsOf l.pass k.lead.now × ((pass_view l.pass).rank ≡ (pass_view k.pass).rank) };

    fn rank(&self) -> u32 {
        self.pass.rank()
    }

    fn part(&mut self) {
        self.pass.fetch_add(self.lead, self.candidate, 1);
    }
}

impl<'a> Carries for Voter<'a> {
    type Pass = ArrayPass<Any, u64>;

    ghost pass = { λ k. k.pass };

    fn into_pass(self) -> ArrayPass<Any, u64> {
        self.pass
    }
}

// A voter for each pass, the last rank first.
fn voters<'a>(
    alloc: Global,
    lead: &'a ArrayLead<u64>,
    mut passes: Vec<ArrayPass<Any, u64>>,
) -> Result<Vec<Voter<'a>>, AllocError>
    requires candidates { 2 ≤ size (lead_key lead.now) }
    requires passes { (i : ℕ) (p : _) → get_elem? passes.items i ≡ some p → IsOf p lead.now × ((pass_view p).rank ≡ i) }
    ensures all { IfOk result (λ kits. length kits.items ≡ length passes.items) }
    ensures kits { IfOk result (λ kits. (i : ℕ) (k : _) → get_elem? kits.items i ≡ some k → (k.lead.now ≡ lead.entry.now) × IsOf k.pass lead.entry.now × (k.candidate < 2) × ((pass_view k.pass).rank + i + 1 ≡ length passes.items)) }
{
    let mut kits = Vec::new(alloc);
    while let Some(pass) = passes.pop() {
        let candidate = pass.rank() % 2;
        kits.push(Voter {
            lead,
            pass,
            candidate,
        })?;
    }
    Ok(kits)
}

#[test]
fn votes_are_counted_side_by_side(rt: HostRuntime) -> Result<(), Fail> {
    // Four ranks with one number each, all 0.
    let home = ArrayHome::<u64>::new(rt.alloc(), 4, 1, 0)?;

    // Each rank gets a pass, under a promise that permits any call of one step.
    let Ok((lead, passes)) = home.begin::<Any>(rt.alloc()) else {
        return Err(Fail::new("no memory"));
    };

    // Each rank votes, in a thread of its own.
    let mut kits = voters(rt.alloc(), &lead, passes)?;
    superstep_all(&rt, &mut kits, &Always);

    // No rank has a pass after this: it is the barrier.
    let passes = passes_of(rt.alloc(), &lead.lead, kits)?;
    let Ok((lead, mut passes)) = lead.turn::<Any, Read>(rt.alloc(), passes) else {
        return Err(Fail::new("no memory"));
    };

    // Under `Read` every rank may read, with plain loads.
    let Some(mut pass) = passes.pop() else {
        return Err(Fail::new("no pass"));
    };
    assert_eq!(rt; pass.read(&lead, 0), 2);
    assert_eq!(rt; pass.read(&lead, 1), 2);
    passes.push(pass)?;

    // The home has seen the whole history.
    lead.end::<Read>(passes);
    Ok(())
}
