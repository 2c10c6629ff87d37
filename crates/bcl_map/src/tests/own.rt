//! Tests of insertions.

ghost use Rattle.std.specs.Prelude.{◌≡◌, ◌≤◌, ◌*◌, ◌^◌, length, IfOk};
ghost use Rattle.bcl_words.specs.Words.{Fits};
ghost use Rattle.bcl_phase.specs.Deals.{AreOf};

use super::Nought;
use crate::tutorial::indexers;
use crate::{ClosedMap, Inserted, MapHome, MapLead, MapPass, begun, closed, turned};
use bcl_merge::Sum;
use bcl_phase::{Find, Gate, Own, passes_of, superstep_all};
use bcl_words::{MergeLaw, Object, Pair};
use std::alloc::Global;
use std::marker::Sync;
use std::sync::atomic::{AtomicU64, Ordering};
use std::test::Fail;
use std::thread::Threads;

// What the last rank answers as it inserts a key of its own.
fn last_inserts<K: Object, V: Object, L: MergeLaw<V>>(
    lead: &MapLead<K, V, L>,
    passes: &mut Vec<MapPass<Own, K, V, L>>,
    key: &K,
    value: &V,
) -> Result<Inserted, Fail>
    requires of { AreOf (λ p. p.pass) lead.now.lead passes.old.items }
    ensures of { IfOk result (λ _. AreOf (λ p. p.pass) lead.now.lead passes.new.items) }
    ensures all { IfOk result (λ _. length passes.new.items ≡ length passes.old.items) }
{
    let Some(mut pass) = passes.pop() else {
        return Err(Fail::new("no pass"));
    };
    if !pass.is_mine(key) {
        return Err(Fail::new("not the last rank's key"));
    }
    let inserted = pass.insert(lead, key, value);
    passes.push(pass)?;
    Ok(inserted)
}

// What it finds of such a key.
pub(super) fn last_finds<K: Object, V: Object, L: MergeLaw<V>>(
    lead: &MapLead<K, V, L>,
    passes: &mut Vec<MapPass<Own, K, V, L>>,
    key: &K,
) -> Result<Option<V>, Fail>
    requires of { AreOf (λ p. p.pass) lead.now.lead passes.old.items }
    ensures of { IfOk result (λ _. AreOf (λ p. p.pass) lead.now.lead passes.new.items) }
    ensures all { IfOk result (λ _. length passes.new.items ≡ length passes.old.items) }
{
    let Some(mut pass) = passes.pop() else {
        return Err(Fail::new("no pass"));
    };
    if !pass.is_mine(key) {
        return Err(Fail::new("not the last rank's key"));
    }
    let found = pass.find(lead, key);
    passes.push(pass)?;
    Ok(found)
}

// What the first of two ranks finds.
fn first_finds<K: Object, V: Object, L: MergeLaw<V>>(
    lead: &MapLead<K, V, L>,
    passes: &mut Vec<MapPass<Find, K, V, L>>,
    key: &K,
) -> Result<Option<V>, Fail>
    requires of { AreOf (λ p. p.pass) lead.now.lead passes.old.items }
    ensures of { IfOk result (λ _. AreOf (λ p. p.pass) lead.now.lead passes.new.items) }
    ensures all { IfOk result (λ _. length passes.new.items ≡ length passes.old.items) }
{
    let Some(last) = passes.pop() else {
        return Err(Fail::new("no pass"));
    };
    let Some(mut first) = passes.pop() else {
        return Err(Fail::new("one pass"));
    };
    if first.rank() != 0 {
        return Err(Fail::new("not the first rank"));
    }
    let found = first.find(lead, key);
    passes.push(first)?;
    passes.push(last)?;
    Ok(found)
}

// Two values of one key, another key for which there is no bucket, and what is found of both.
fn one_bucket<K: Object>(
    alloc: Global,
    key: &K,
    other: &K,
) -> Result<([Inserted; 3], [Option<u64>; 2], ClosedMap<K, u64, Sum>), Fail>
    requires key { Fits K.WORDS }
{
    let home = MapHome::<K, u64, Sum>::new(alloc, 1, 1)?;
    let (lead, mut passes) = begun(alloc, home)?;
    let inserted = [
        last_inserts(&lead, &mut passes, key, &1)?,
        last_inserts(&lead, &mut passes, key, &2)?,
        last_inserts(&lead, &mut passes, other, &1)?,
    ];
    let found = [
        last_finds(&lead, &mut passes, other)?,
        last_finds(&lead, &mut passes, key)?,
    ];
    let closed = closed(alloc, lead.end::<Own>(passes))?;
    Ok((inserted, found, closed))
}

#[test]
fn one_bucket_is_full(rt: HostRuntime) -> Result<(), Fail> {
    let (inserted, found, closed) = one_bucket(rt.alloc(), &3u64, &6)?;
    assert_eq!(rt;
        inserted,
        [Inserted::New, Inserted::Replaced, Inserted::Full]
    );
    assert_eq!(rt; found, [None, Some(2)]);
    assert_eq!(rt; closed.entries(), [(3, 2)].as_slice());
    Ok(())
}

// Three keys of the last of two ranks, and what the first finds in the next phase.
fn three_keys<K: Object>(
    alloc: Global,
    keys: [&K; 3],
) -> Result<([Inserted; 3], [Option<u64>; 3], ClosedMap<K, u64, Sum>), Fail>
    requires key { Fits K.WORDS }
{
    let home = MapHome::<K, u64, Sum>::new(alloc, 2, 2)?;
    let (lead, mut passes) = begun(alloc, home)?;
    let inserted = [
        last_inserts(&lead, &mut passes, keys[0], &30)?,
        last_inserts(&lead, &mut passes, keys[1], &60)?,
        last_inserts(&lead, &mut passes, keys[2], &90)?,
    ];
    let (lead, mut passes) = turned(alloc, lead, passes)?;
    let found = [
        first_finds(&lead, &mut passes, keys[0])?,
        first_finds(&lead, &mut passes, keys[1])?,
        first_finds(&lead, &mut passes, keys[2])?,
    ];
    let closed = closed(alloc, lead.end::<Find>(passes))?;
    Ok((inserted, found, closed))
}

// All three paths begin at the last bucket.
#[test]
fn pairs_of_one_path_stand_side_by_side(rt: HostRuntime) -> Result<(), Fail> {
    let (inserted, found, closed) = three_keys(rt.alloc(), [&3u64, &6, &9])?;
    assert_eq!(rt; inserted, [Inserted::New, Inserted::New, Inserted::New]);
    assert_eq!(rt; found, [Some(30), Some(60), Some(90)]);
    assert_eq!(rt; closed.entries(), [(6, 60), (9, 90), (3, 30)].as_slice());
    Ok(())
}

// A value of a key, another one, and what is found of it.
fn two_values<K: Object, V: Object, L: MergeLaw<V>>(
    alloc: Global,
    key: &K,
    values: [&V; 2],
) -> Result<([Inserted; 2], Option<V>), Fail>
    requires key { Fits K.WORDS }
    requires value { Fits V.WORDS }
{
    let home = MapHome::<K, V, L>::new(alloc, 1, 2)?;
    let (lead, mut passes) = begun(alloc, home)?;
    let inserted = [
        last_inserts(&lead, &mut passes, key, values[0])?,
        last_inserts(&lead, &mut passes, key, values[1])?,
    ];
    let found = last_finds(&lead, &mut passes, key)?;
    lead.end::<Own>(passes);
    Ok((inserted, found))
}

#[test]
fn keys_and_values_have_several_words(rt: HostRuntime) -> Result<(), Fail> {
    let both = [Inserted::New, Inserted::Replaced];
    let key = Pair { a: 3u64, b: 7u64 };
    let found = two_values::<Pair<u64, u64>, u64, Sum>(rt.alloc(), &key, [&5, &6])?;
    assert_eq!(rt; found, (both, Some(6)));
    let value = (9u128 << 64) + 5;
    let found = two_values::<u64, u128, Nought>(rt.alloc(), &3, [&1, &value])?;
    assert_eq!(rt; found, (both, Some(value)));
    Ok(())
}

// Holds each rank until all have entered, so that their parts begin side by side.
#[derive(Drop)]
pub(super) struct Meeting {
    pub(super) ranks: u64,
    pub(super) entered: AtomicU64,
}

impl Gate for Meeting {
    fn enter(&self, _rank: u32) {
        self.entered.fetch_add(1, Ordering::SeqCst);
        for _ in 0..100_000_000u64 {
            if self.entered.load(Ordering::SeqCst) >= self.ranks {
                return;
            }
        }
    }
}

// A map of two ranks whose parts ran side by side, each over all keys; and how many keys found no bucket.
fn side_by_side<H: Threads + Sync>(
    rt: &H,
    alloc: Global,
    per_rank: u32,
    keys: &[u64],
) -> Result<(u64, ClosedMap<u64, u64, Sum>), Fail>
    requires buckets { 1 ≤ per_rank }
    requires words { 2 * per_rank * 3 ≤ 2 ^ 27 }
{
    let home = MapHome::<u64, u64, Sum>::new(alloc, 2, per_rank)?;
    let (lead, passes) = begun(alloc, home)?;
    let mut kits = indexers(alloc, &lead, passes, keys)?;
    let gate = Meeting {
        ranks: 2,
        entered: AtomicU64::new(0),
    };
    superstep_all(rt, &mut kits, &gate);
    let mut full = 0u64;
    for kit in &kits {
        full = full.wrapping_add(kit.full);
    }
    let passes = passes_of(alloc, &lead.lead, kits)?;
    let closed = closed(alloc, lead.end::<Own>(passes))?;
    Ok((full, closed))
}

// The pairs of a map that has four, in the order of their keys.
fn four_pairs(closed: &ClosedMap<u64, u64, Sum>) -> Result<[(u64, u64); 4], Fail> {
    let entries = closed.entries();
    if entries.len() != 4 {
        return Err(Fail::new("not four pairs"));
    }
    let mut pairs = [entries[0], entries[1], entries[2], entries[3]];
    pairs.sort_unstable();
    Ok(pairs)
}

// Rank 1 has 3 and 6, whose paths begin at the last bucket, and rank 0 has 0 and 2: the bucket behind the last one is where
// both 6 and 0 go, and where one of them is too late, it meets 2.
#[test]
fn no_key_is_lost_where_paths_meet(rt: HostRuntime) -> Result<(), Fail> {
    for _ in 0..200 {
        let (full, closed) = side_by_side(&rt, rt.alloc(), 2, &[3u64, 6, 0, 2])?;
        assert_eq!(rt; full, 0);
        let wanted = [(0, 2), (2, 3), (3, 0), (6, 1)];
        assert_eq!(rt; four_pairs(&closed)?, wanted);
    }
    Ok(())
}

// Three of four buckets are those of 1, 2 and 3, and both 0 of rank 0 and 6 of rank 1 want the last one that is free.
#[test]
fn one_of_two_keys_finds_no_bucket(rt: HostRuntime) -> Result<(), Fail> {
    for _ in 0..200 {
        let (full, closed) = side_by_side(&rt, rt.alloc(), 2, &[1u64, 2, 3, 0, 6])?;
        assert_eq!(rt; full, 1);
        let pairs = four_pairs(&closed)?;
        let with_0 = [(0, 3), (1, 0), (2, 1), (3, 2)];
        let with_6 = [(1, 0), (2, 1), (3, 2), (6, 4)];
        assert!(rt; pairs == with_0 || pairs == with_6);
    }
    Ok(())
}
