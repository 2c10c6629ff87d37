//! The superstep that finds: each rank a slice of the keys, whatever their homes.

ghost use Rattle.std.specs.Prelude.{◌≡◌, ◌≤◌, ◌+◌, ℕ, ⊤, length, IfOk};
ghost use mathlib.Core.Option.{some};
ghost use lib.ListN.{get_elem?};
ghost use Rattle.bcl_phase.specs.Deals.{IsIn, AreOf};

use bcl_map::{Map, MapLead, MapPass};
use bcl_merge::Sum;
use bcl_phase::{Find, Kit, Phased};
use bcl_words::Object;
use std::alloc::{AllocError, Global};

/// One rank's part.
#[derive(Drop)]
pub struct Finder<'a, K: Object, V: Object, L>
where
    Map<K, V, L>: Phased,
{
    lead: &'a MapLead<K, V, L>,
    pass: MapPass<Find, K, V, L>,
    pairs: &'a [(K, V)],
    /// The sum of the values that were found, modulo 2^64.
    pub sum: u64,
}

/// Finds the keys of pairs, and answers the sum of the values that were found, modulo 2^64.
fn find_all<K: Object>(
    lead: &MapLead<K, u64, Sum>,
    pass: &mut MapPass<Find, K, u64, Sum>,
    pairs: &[(K, u64)],
) -> u64
    requires of { IsIn pass.old.pass lead.now.lead }
{
    let mut sum = 0u64;
    for pair in pairs {
        if let Some(value) = pass.find(lead, &pair.0) {
            sum = sum.wrapping_add(value);
        }
    }
    sum
}

impl<'a> Kit for Finder<'a, u64, u64, Sum> {
    ghost ready = { λ k. IsIn k.pass.pass k.lead.now.lead };

    ghost step = { λ _ _. ⊤ };

    fn rank(&self) -> u32 {
        self.pass.rank()
    }

    fn part(&mut self) {
        self.sum = find_all(self.lead, &mut self.pass, self.pairs);
    }
}

/// A finder for each pass, the last rank first. Together they have all pairs.
pub fn finders<'a, K: Object>(
    alloc: Global,
    lead: &'a MapLead<K, u64, Sum>,
    mut passes: Vec<MapPass<Find, K, u64, Sum>>,
    pairs: &'a [(K, u64)],
) -> Result<Vec<Finder<'a, K, u64, Sum>>, AllocError>
    requires passes { AreOf (λ p. p.pass) lead.now.lead passes.items }
    ensures kits { IfOk result (λ kits. (i : ℕ) (k : _) → get_elem? kits.items i ≡ some k → IsIn k.pass.pass k.lead.now.lead) }
{
    let mut kits = Vec::new(alloc);
    let mut rest = pairs;
    while let Some(pass) = passes.pop() {
        let share = rest.len() / (passes.len() + 1);
        let (front, back) = rest.split_at(rest.len() - share);
        rest = front;
        kits.push(Finder {
            lead,
            pass,
            pairs: back,
            sum: 0,
        })?;
    }
    Ok(kits)
}
