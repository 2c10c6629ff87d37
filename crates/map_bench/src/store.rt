//! The superstep that stores: each rank the pairs whose keys are its own.

ghost use Rattle.std.specs.Prelude.{◌≡◌, ◌+◌, ℕ, All, length, IfOk};
ghost use mathlib.Core.Option.{some};
ghost use lib.ListN.{get_elem?};
ghost use Rattle.bcl_words.specs.Numbers.{one_word};
ghost use Rattle.bcl_map.specs.Calls.{IsMine};
ghost use Rattle.bcl_phase.specs.Deals.{view, IsIn, AreOf};

use crate::insert::insert_all;
use crate::job::Call;
use crate::merge::merge_all;
use bcl_map::{Map, MapLead, MapPass};
use bcl_merge::{Merger, Sum, wrapping_sum};
use bcl_phase::{Carries, Kit, Own, Phased};
use bcl_words::Object;
use std::alloc::{AllocError, Global};

/// One rank's part.
#[derive(Drop)]
pub struct Storer<'a, K: Object, V: Object, L>
where
    Map<K, V, L>: Phased,
{
    lead: &'a MapLead<K, V, L>,
    pass: MapPass<Own, K, V, L>,
    call: Call,
    /// The pairs whose keys have the rank as their home.
    pub pairs: Vec<(K, V)>,
    /// How many of the keys were new.
    pub new: u64,
}

/// Stores pairs by a call, and answers how many of the keys were new.
fn store_all<K: Object>(
    call: Call,
    lead: &MapLead<K, u64, Sum>,
    pass: &mut MapPass<Own, K, u64, Sum>,
    pairs: &[(K, u64)],
) -> u64
    requires of { IsIn pass.old.pass lead.now.lead }
    requires mine { All (λ pair. IsMine (view pass.old.pass) (K.words pair.0)) pairs.now }
    ensures of { IsIn pass.new.pass lead.now.lead }
    ensures rank { (view pass.new.pass).rank ≡ (view pass.old.pass).rank }
{
    match call {
        Call::Insert => insert_all(lead, pass, pairs),
        Call::Merge => {
            let sum = Merger::new(|a: u64, b: u64| wrapping_sum(a, b));
            merge_all(lead, pass, pairs, &sum)
        }
    }
}

impl<'a> Kit for Storer<'a, u64, u64, Sum> {
    ghost ready = { λ k. IsIn k.pass.pass k.lead.now.lead × All (λ pair. IsMine (view k.pass.pass) (one_word pair.0)) k.pairs.items };

    ghost step = { λ k l. (l.lead ≡ k.lead) × IsIn l.pass.pass k.lead.now.lead × ((view l.pass.pass).rank ≡ (view k.pass.pass).rank) };

    fn rank(&self) -> u32 {
        self.pass.rank()
    }

    fn part(&mut self) {
        self.new = store_all(self.call, self.lead, &mut self.pass, self.pairs.as_slice());
    }
}

impl<'a> Carries for Storer<'a, u64, u64, Sum> {
    type Pass = MapPass<Own, u64, u64, Sum>;

    ghost pass = { λ k. k.pass };

    fn into_pass(self) -> MapPass<Own, u64, u64, Sum> {
        self.pass
    }
}

/// The pairs of a list whose keys have the rank of a pass as their home.
fn own_pairs<K: Object>(
    alloc: Global,
    pass: &MapPass<Own, K, u64, Sum>,
    pairs: &[(K, u64)],
) -> Result<Vec<(K, u64)>, AllocError>
    ensures mine { IfOk result (λ own. All (λ pair. IsMine (view pass.now.pass) (K.words pair.0)) own.items) }
{
    let mut own = Vec::new(alloc);
    for pair in pairs {
        if pass.is_mine(&pair.0) {
            own.push(*pair)?;
        }
    }
    Ok(own)
}

/// A storer for each pass, the last rank first. The pairs of a list are dealt to them.
pub fn storers<'a, K: Object>(
    alloc: Global,
    lead: &'a MapLead<K, u64, Sum>,
    mut passes: Vec<MapPass<Own, K, u64, Sum>>,
    call: Call,
    pairs: &[(K, u64)],
) -> Result<Vec<Storer<'a, K, u64, Sum>>, AllocError>
    requires passes { AreOf (λ p. p.pass) lead.now.lead passes.items }
    ensures all { IfOk result (λ kits. length kits.items ≡ length passes.items) }
    ensures kits { IfOk result (λ kits. (i : ℕ) (k : _) → get_elem? kits.items i ≡ some k → (k.lead.now ≡ lead.entry.now) × IsIn k.pass.pass lead.entry.now.lead × ((view k.pass.pass).rank + i + 1 ≡ length passes.items) × All (λ pair. IsMine (view k.pass.pass) (K.words pair.0)) k.pairs.items) }
{
    let mut kits = Vec::new(alloc);
    while let Some(pass) = passes.pop() {
        let own = own_pairs(alloc, &pass, pairs)?;
        kits.push(Storer {
            lead,
            pass,
            call,
            pairs: own,
            new: 0,
        })?;
    }
    Ok(kits)
}
