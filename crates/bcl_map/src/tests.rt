ghost use Rattle.std.specs.Prelude.{◌≡◌, ◌≤◌, ◌+◌, ◌*◌, ◌^◌, length, IfOk, refl, [], ◌∷◌};
ghost use Rattle.bcl_words.specs.Words.{Fits};
ghost use Rattle.bcl_phase.specs.Deals.{AreOf, AreAll};

use crate::{ClosedMap, MapHome, MapLead, MapPass};
use bcl_merge::Sum;
use bcl_phase::Find;
use bcl_segment::Layout;
use bcl_words::{Bytes64, MergeLaw, Object, Pair};
use std::alloc::Global;
use std::test::Fail;

mod merge;
mod own;

// Two numbers of two words become 0.
struct Nought;

impl MergeLaw<u128> for Nought {
    ghost op = { λ a b. 0 ∷ 0 ∷ 0 ∷ 0 ∷ 0 ∷ 0 ∷ 0 ∷ 0 ∷ [] };

    ghost closed = { λ a b _ _. refl };

    ghost commutative = { λ a b _ _. refl };

    ghost associative = { λ a b c _ _ _. refl };
}

// Begins a phase of finds, and again where it is refused.
fn begun_or_again<K: Object, V: Object, L: MergeLaw<V>>(
    alloc: Global,
    home: MapHome<K, V, L>,
) -> Result<(MapLead<K, V, L>, Vec<MapPass<Find, K, V, L>>), Fail>
    ensures all { IfOk result (λ r. AreAll (λ p. p.pass) r.0.lead r.1.items) }
{
    let home = match home.begin::<Find>(alloc) {
        Ok(begun) => return Ok(begun),
        Err(refused) => refused.home,
    };
    match home.begin::<Find>(alloc) {
        Ok(begun) => Ok(begun),
        Err(_) => Err(Fail::new("no memory")),
    }
}

// The same of the next phase.
fn turned_or_again<K: Object, V: Object, L: MergeLaw<V>>(
    alloc: Global,
    lead: MapLead<K, V, L>,
    passes: Vec<MapPass<Find, K, V, L>>,
) -> Result<(MapLead<K, V, L>, Vec<MapPass<Find, K, V, L>>), Fail>
    requires all { AreAll (λ p. p.pass) lead.lead passes.items }
    ensures all { IfOk result (λ r. AreAll (λ p. p.pass) r.0.lead r.1.items) }
{
    match lead.turn::<Find, Find>(alloc, passes) {
        Ok(turned) => Ok(turned),
        Err(refused) => begun_or_again(alloc, refused.home),
    }
}

// What the last rank finds.
fn last_finds<K: Object, V: Object, L: MergeLaw<V>>(
    lead: &MapLead<K, V, L>,
    passes: &mut Vec<MapPass<Find, K, V, L>>,
    key: &K,
) -> Result<Option<V>, Fail>
    requires of { AreOf (λ p. p.pass) lead.now.lead passes.old.items }
    ensures of { IfOk result (λ _. AreOf (λ p. p.pass) lead.now.lead passes.new.items) }
    ensures all { IfOk result (λ _. length passes.new.items ≡ length passes.old.items) }
{
    let Some(mut pass) = passes.pop() else {
        return Err(Fail::new("no pass"));
    };
    let found = pass.find(lead, key);
    passes.push(pass)?;
    Ok(found)
}

// Closes a map, and again where it is refused.
fn closed_or_again<K: Object, V: Object, L: MergeLaw<V>>(
    alloc: Global,
    home: MapHome<K, V, L>,
) -> Result<ClosedMap<K, V, L>, Fail> {
    let home = match home.close(alloc) {
        Ok(closed) => return Ok(closed),
        Err(refused) => refused.home,
    };
    match home.close(alloc) {
        Ok(closed) => Ok(closed),
        Err(_) => Err(Fail::new("no memory")),
    }
}

// What the last rank finds in a map without pairs, before a turn and behind it, and how many entries there are then.
fn finds<K: Object, V: Object, L: MergeLaw<V>>(
    alloc: Global,
    ranks: u32,
    per_rank: u32,
    key: &K,
    other: &K,
) -> Result<([Option<V>; 2], usize), Fail>
    requires key { Fits K.WORDS }
    requires value { Fits V.WORDS }
    requires ranks { (1 ≤ ranks) × (ranks ≤ 64) }
    requires buckets { 1 ≤ per_rank }
    requires words { ranks * per_rank * (1 + (K.WORDS + V.WORDS)) ≤ 2 ^ 27 }
{
    let home = MapHome::<K, V, L>::new(alloc, ranks, per_rank)?;
    let (lead, mut passes) = begun_or_again(alloc, home)?;
    let first = last_finds(&lead, &mut passes, key)?;
    let (lead, mut passes) = turned_or_again(alloc, lead, passes)?;
    let second = last_finds(&lead, &mut passes, other)?;
    let closed = closed_or_again(alloc, lead.end::<Find>(passes))?;
    Ok(([first, second], closed.entries().len()))
}

#[test]
fn an_empty_map_has_no_key(rt: HostRuntime) -> Result<(), Fail> {
    let found = finds::<u64, u64, Sum>(rt.alloc(), 1, 1, &3, &0)?;
    assert_eq!(rt; found, ([None, None], 0));
    let found = finds::<u64, u64, Sum>(rt.alloc(), 2, 2, &3, &u64::MAX)?;
    assert_eq!(rt; found, ([None, None], 0));
    Ok(())
}

#[test]
fn keys_and_values_have_several_words(rt: HostRuntime) -> Result<(), Fail> {
    let found = finds::<u128, u64, Sum>(rt.alloc(), 3, 1, &(7 << 64 | 9), &9)?;
    assert_eq!(rt; found, ([None, None], 0));
    let pair = Pair { a: 3u64, b: 7u64 };
    let found = finds::<Pair<u64, u64>, u64, Sum>(rt.alloc(), 1, 3, &pair, &pair)?;
    assert_eq!(rt; found, ([None, None], 0));
    let bytes = Bytes64 { bytes: [7; 64] };
    let found = finds::<Bytes64, u64, Sum>(rt.alloc(), 2, 1, &bytes, &bytes)?;
    assert_eq!(rt; found, ([None, None], 0));
    let found = finds::<u64, u128, Nought>(rt.alloc(), 2, 3, &3, &0)?;
    assert_eq!(rt; found, ([None, None], 0));
    Ok(())
}

// The shape of a map that was just made.
fn shape_of<K: Object, V: Object, L: MergeLaw<V>>(
    alloc: Global,
    ranks: u32,
    per_rank: u32,
) -> Result<Layout, Fail>
    requires key { Fits K.WORDS }
    requires value { Fits V.WORDS }
    requires ranks { (1 ≤ ranks) × (ranks ≤ 64) }
    requires buckets { 1 ≤ per_rank }
    requires words { ranks * per_rank * (1 + (K.WORDS + V.WORDS)) ≤ 2 ^ 27 }
{
    let home = MapHome::<K, V, L>::new(alloc, ranks, per_rank)?;
    Ok(home.shape())
}

#[test]
fn a_shape_counts_buckets(rt: HostRuntime) -> Result<(), Fail> {
    let wanted = Layout {
        ranks: 3,
        per_rank: 5,
    };
    assert_eq!(rt; shape_of::<u64, u64, Sum>(rt.alloc(), 3, 5)?, wanted);
    assert_eq!(rt; shape_of::<Bytes64, u64, Sum>(rt.alloc(), 3, 5)?, wanted);
    assert_eq!(rt; shape_of::<u64, u128, Nought>(rt.alloc(), 3, 5)?, wanted);
    Ok(())
}

// The ranks that say that a key is their own, in their order.
fn owners<K: Object>(alloc: Global, ranks: u32, per_rank: u32, key: &K) -> Result<Vec<u32>, Fail>
    requires key { Fits K.WORDS }
    requires ranks { (1 ≤ ranks) × (ranks ≤ 64) }
    requires buckets { 1 ≤ per_rank }
    requires words { ranks * per_rank * (1 + (K.WORDS + 1)) ≤ 2 ^ 27 }
{
    let home = MapHome::<K, u64, Sum>::new(alloc, ranks, per_rank)?;
    let (lead, passes) = begun_or_again(alloc, home)?;
    let mut owners = Vec::new(alloc);
    for pass in &passes {
        if pass.is_mine(key) {
            owners.push(pass.rank())?;
        }
    }
    lead.end::<Find>(passes);
    Ok(owners)
}

// Where these paths begin, the tests of the buckets say.
#[test]
fn one_rank_has_a_key(rt: HostRuntime) -> Result<(), Fail> {
    assert_eq!(rt; owners(rt.alloc(), 1, 1, &3u64)?.as_slice(), [0].as_slice());
    assert_eq!(rt; owners(rt.alloc(), 2, 2, &2u64)?.as_slice(), [0].as_slice());
    assert_eq!(rt; owners(rt.alloc(), 2, 2, &3u64)?.as_slice(), [1].as_slice());
    assert_eq!(rt;
        owners(rt.alloc(), 4, 2, &27u64)?.as_slice(),
        [3].as_slice()
    );
    assert_eq!(rt;
        owners(rt.alloc(), 4, 2, &44u64)?.as_slice(),
        [1].as_slice()
    );
    assert_eq!(rt;
        owners(rt.alloc(), 8, 1, &((1u128 << 64) + 2))?.as_slice(),
        [1].as_slice()
    );
    Ok(())
}

// The rank of the last pass of a begin.
fn last_rank<K: Object>(alloc: Global, ranks: u32) -> Result<Option<u32>, Fail>
    requires key { Fits K.WORDS }
    requires ranks { (1 ≤ ranks) × (ranks ≤ 64) }
    requires words { ranks * 1 * (1 + (K.WORDS + 1)) ≤ 2 ^ 27 }
{
    let home = MapHome::<K, u64, Sum>::new(alloc, ranks, 1)?;
    let (lead, passes) = begun_or_again(alloc, home)?;
    let last = passes.last().map(|pass| pass.rank());
    lead.end::<Find>(passes);
    Ok(last)
}

#[test]
fn the_last_pass_has_the_last_rank(rt: HostRuntime) -> Result<(), Fail> {
    assert_eq!(rt; last_rank::<u64>(rt.alloc(), 1)?, Some(0));
    assert_eq!(rt; last_rank::<u64>(rt.alloc(), 64)?, Some(63));
    Ok(())
}
