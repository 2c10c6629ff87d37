//! Tests of merges.

ghost use Rattle.std.specs.Prelude.{◌≡◌, ◌≤◌, ◌+◌, ◌*◌, ◌^◌, ℕ, length, IfOk};
ghost use mathlib.Core.Option.{some};
ghost use lib.ListN.{get_elem?};
ghost use Rattle.bcl_words.specs.Words.{Fits};
ghost use Rattle.bcl_words.specs.Merges.{AnswersLaw};
ghost use Rattle.bcl_phase.specs.Deals.{view, IsIn, AreOf};

use super::Nought;
use super::own::{Meeting, last_finds};
use crate::{ClosedMap, Inserted, MapHome, MapLead, MapPass, begun, closed};
use bcl_merge::{Merger, Sum, wrapping_sum};
use bcl_phase::{Carries, Kit, Own, passes_of, superstep_all};
use bcl_words::{MergeLaw, Object, Pair};
use std::alloc::{AllocError, Global};
use std::marker::Sync;
use std::sync::atomic::AtomicU64;
use std::test::Fail;
use std::thread::Threads;

// What the last rank answers as it merges a value into that of a key of its own.
fn last_merges<K: Object, V: Object, L: MergeLaw<V>, F: Fn(V, V) -> V + Sync>(
    lead: &MapLead<K, V, L>,
    passes: &mut Vec<MapPass<Own, K, V, L>>,
    key: &K,
    value: &V,
    merger: &Merger<V, L, F>,
) -> Result<Inserted, Fail>
    requires of { AreOf (λ p. p.pass) lead.now.lead passes.old.items }
    requires answers { AnswersLaw V.passes V.words L.op (F.pre merger.now) (F.post merger.now) }
    ensures of { IfOk result (λ _. AreOf (λ p. p.pass) lead.now.lead passes.new.items) }
    ensures all { IfOk result (λ _. length passes.new.items ≡ length passes.old.items) }
{
    let Some(mut pass) = passes.pop() else {
        return Err(Fail::new("no pass"));
    };
    if !pass.is_mine(key) {
        return Err(Fail::new("not the last rank's key"));
    }
    let merged = pass.merge(lead, key, value, merger);
    passes.push(pass)?;
    Ok(merged)
}

// Two values of one key, and what is found of it.
fn two_values<K: Object, V: Object, L: MergeLaw<V>, F: Fn(V, V) -> V + Sync>(
    alloc: Global,
    key: &K,
    values: [&V; 2],
    merger: &Merger<V, L, F>,
) -> Result<([Inserted; 2], Option<V>), Fail>
    requires key { Fits K.WORDS }
    requires value { Fits V.WORDS }
    requires answers { AnswersLaw V.passes V.words L.op (F.pre merger.now) (F.post merger.now) }
{
    let home = MapHome::<K, V, L>::new(alloc, 1, 2)?;
    let (lead, mut passes) = begun(alloc, home)?;
    let merged = [
        last_merges(&lead, &mut passes, key, values[0], merger)?,
        last_merges(&lead, &mut passes, key, values[1], merger)?,
    ];
    let found = last_finds(&lead, &mut passes, key)?;
    lead.end::<Own>(passes);
    Ok((merged, found))
}

#[test]
fn a_merge_makes_what_the_law_says(rt: HostRuntime) -> Result<(), Fail> {
    let both = [Inserted::New, Inserted::Replaced];
    let sum = Merger::new(|a: u64, b: u64| wrapping_sum(a, b));
    let found = two_values::<u64, u64, Sum, _>(rt.alloc(), &3, [&5, &6], &sum)?;
    assert_eq!(rt; found, (both, Some(11)));
    let key = Pair { a: 3u64, b: 7u64 };
    let found = two_values::<Pair<u64, u64>, u64, Sum, _>(rt.alloc(), &key, [&5, &6], &sum)?;
    assert_eq!(rt; found, (both, Some(11)));
    let nought = Merger::new(|_a: u128, _b: u128| 0u128);
    let value = (9u128 << 64) + 5;
    let found = two_values::<u64, u128, Nought, _>(rt.alloc(), &3, [&1, &value], &nought)?;
    assert_eq!(rt; found, (both, Some(0)));
    Ok(())
}

// Merges into a map of one bucket, of one key and of another one, and what is found of both.
fn one_bucket<F: Fn(u64, u64) -> u64 + Sync>(
    alloc: Global,
    sum: &Merger<u64, Sum, F>,
) -> Result<([Inserted; 3], [Option<u64>; 2], ClosedMap<u64, u64, Sum>), Fail>
    requires answers { AnswersLaw ⟦<u64 as Object>⟧.passes ⟦<u64 as Object>⟧.words ⟦<Sum as MergeLaw<u64>>⟧.op (F.pre sum.now) (F.post sum.now) }
{
    let home = MapHome::<u64, u64, Sum>::new(alloc, 1, 1)?;
    let (lead, mut passes) = begun(alloc, home)?;
    let merged = [
        last_merges(&lead, &mut passes, &3, &1, sum)?,
        last_merges(&lead, &mut passes, &6, &7, sum)?,
        last_merges(&lead, &mut passes, &3, &2, sum)?,
    ];
    let found = [
        last_finds(&lead, &mut passes, &6)?,
        last_finds(&lead, &mut passes, &3)?,
    ];
    let closed = closed(alloc, lead.end::<Own>(passes))?;
    Ok((merged, found, closed))
}

#[test]
fn a_full_map_merges_present_keys_alone(rt: HostRuntime) -> Result<(), Fail> {
    let sum = Merger::new(|a: u64, b: u64| wrapping_sum(a, b));
    let (merged, found, closed) = one_bucket(rt.alloc(), &sum)?;
    assert_eq!(rt; merged, [Inserted::New, Inserted::Full, Inserted::Replaced]);
    assert_eq!(rt; found, [None, Some(3)]);
    assert_eq!(rt; closed.entries(), [(3, 3)].as_slice());
    Ok(())
}

// One rank's part: it merges each pair of a list whose key is its own.
#[derive(Drop)]
struct Summer<'a> {
    lead: &'a MapLead<u64, u64, Sum>,
    pass: MapPass<Own, u64, u64, Sum>,
    pairs: &'a [(u64, u64)],
    full: u64,
}

impl<'a> Kit for Summer<'a> {
    ghost ready = { λ k. IsIn k.pass.pass k.lead.now.lead };

    ghost step = { λ k l. (l.lead ≡ k.lead) × IsIn l.pass.pass k.lead.now.lead × ((view l.pass.pass).rank ≡ (view k.pass.pass).rank) };

    fn rank(&self) -> u32 {
        self.pass.rank()
    }

    fn part(&mut self) {
        let sum = Merger::new(|a: u64, b: u64| wrapping_sum(a, b));
        for pair in self.pairs {
            if self.pass.is_mine(&pair.0)
                && self.pass.merge(self.lead, &pair.0, &pair.1, &sum) == Inserted::Full
            {
                self.full = self.full.wrapping_add(1);
            }
        }
    }
}

impl<'a> Carries for Summer<'a> {
    type Pass = MapPass<Own, u64, u64, Sum>;

    ghost pass = { λ k. k.pass };

    fn into_pass(self) -> MapPass<Own, u64, u64, Sum> {
        self.pass
    }
}

// A summer for each pass, the last rank first.
fn summers<'a>(
    alloc: Global,
    lead: &'a MapLead<u64, u64, Sum>,
    mut passes: Vec<MapPass<Own, u64, u64, Sum>>,
    pairs: &'a [(u64, u64)],
) -> Result<Vec<Summer<'a>>, AllocError>
    requires passes { AreOf (λ p. p.pass) lead.now.lead passes.items }
    ensures all { IfOk result (λ kits. length kits.items ≡ length passes.items) }
    ensures kits { IfOk result (λ kits. (i : ℕ) (k : _) → get_elem? kits.items i ≡ some k → (k.lead.now ≡ lead.entry.now) × IsIn k.pass.pass lead.entry.now.lead × ((view k.pass.pass).rank + i + 1 ≡ length passes.items)) }
{
    let mut kits = Vec::new(alloc);
    while let Some(pass) = passes.pop() {
        kits.push(Summer {
            lead,
            pass,
            pairs,
            full: 0,
        })?;
    }
    Ok(kits)
}

// The pairs of a map of four ranks that merged a list side by side, in the order of their keys; and how many found no
// bucket.
fn side_by_side<H: Threads + Sync>(
    rt: &H,
    alloc: Global,
    pairs: &[(u64, u64)],
) -> Result<(u64, Vec<(u64, u64)>), Fail> {
    let home = MapHome::<u64, u64, Sum>::new(alloc, 4, 4)?;
    let (lead, passes) = begun(alloc, home)?;
    let mut kits = summers(alloc, &lead, passes, pairs)?;
    let gate = Meeting {
        ranks: 4,
        entered: AtomicU64::new(0),
    };
    superstep_all(rt, &mut kits, &gate);
    let mut full = 0u64;
    for kit in &kits {
        full = full.wrapping_add(kit.full);
    }
    let passes = passes_of(alloc, &lead.lead, kits)?;
    let closed = closed(alloc, lead.end::<Own>(passes))?;
    let mut found = closed.entries().to_vec(alloc)?;
    found.sort_unstable();
    Ok((full, found))
}

// A list of thirteen keys, each many times.
fn listed(alloc: Global) -> Result<Vec<(u64, u64)>, AllocError> {
    let mut pairs = Vec::new(alloc);
    for place in 0..200u64 {
        pairs.push((place * 5 % 13, place))?;
    }
    Ok(pairs)
}

// The sum of the values of each key.
fn sums(alloc: Global, pairs: &[(u64, u64)]) -> Result<Vec<(u64, u64)>, AllocError> {
    let mut sums = Vec::new(alloc);
    for key in 0..13u64 {
        let mut sum = 0u64;
        for pair in pairs {
            if pair.0 == key {
                sum = sum.wrapping_add(pair.1);
            }
        }
        sums.push((key, sum))?;
    }
    Ok(sums)
}

// The paths of thirteen keys meet in sixteen buckets.
#[test]
fn no_value_is_lost_where_paths_meet(rt: HostRuntime) -> Result<(), Fail> {
    let pairs = listed(rt.alloc())?;
    let wanted = sums(rt.alloc(), &pairs)?;
    for _ in 0..100 {
        let (full, found) = side_by_side(&rt, rt.alloc(), &pairs)?;
        assert_eq!(rt; full, 0);
        assert_eq!(rt; found.as_slice(), wanted.as_slice());
    }
    Ok(())
}
