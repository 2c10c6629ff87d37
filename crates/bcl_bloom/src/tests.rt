ghost use Rattle.std.specs.Prelude.{◌≡◌, ◌+◌, ℕ, length, true, IfOk, IfSome, IsNone};
ghost use mathlib.Core.Option.{some};
ghost use lib.ListN.{get_elem?};
ghost use Rattle.std.specs.List.{All};
ghost use Rattle.bcl_phase.specs.Deals.{view, IsIn, AreOf};

use crate::{FilterHome, FilterLead, FilterPass};
use bcl_event::bits_of;
use bcl_phase::{Always, Any, Kit, superstep};
use bcl_words::{Object, key_hash};
use std::alloc::{AllocError, Global};
use std::test::Fail;

#[test]
fn keys_mark_these_bits(rt: HostRuntime) {
    assert_eq!(rt; bits_of(key_hash::<u64>(&0u64.to_words())), [0, 0, 0, 0]);
    assert_eq!(rt;
        bits_of(key_hash::<u64>(&1u64.to_words())),
        [11, 62, 37, 15]
    );
    assert_eq!(rt;
        bits_of(key_hash::<u64>(&3u64.to_words())),
        [35, 59, 47, 46]
    );
}

// What an inserted key is answered, whatever was answered to its insertion.
fn insert_then_find(pass: &mut FilterPass<Any, u64>, lead: &FilterLead<u64>, key: u64) -> bool
    requires of { IsIn pass.old.pass lead.now.lead }
    ensures found { result ≡ true }
    ensures of { IsIn pass.new.pass lead.now.lead }
    ensures rank { (view pass.new.pass).rank ≡ (view pass.old.pass).rank }
{
    pass.insert(lead, &key);
    pass.find(lead, &key)
}

// A rank that inserts a key and then asks for another.
#[derive(Drop)]
struct Asker<'a> {
    lead: &'a FilterLead<u64>,
    pass: FilterPass<Any, u64>,
    own: u64,
    other: u64,
    own_found: bool,
    other_found: bool,
}

impl<'a> Kit for Asker<'a> {
    ghost ready = { λ k. IsIn k.pass.pass k.lead.now.lead };

    ghost step = { λ k l. (l.lead ≡ k.lead) × IsIn l.pass.pass l.lead.now.lead × ((view l.pass.pass).rank ≡ (view k.pass.pass).rank) × (l.own_found ≡ true) };

    fn rank(&self) -> u32 {
        self.pass.rank()
    }

    fn part(&mut self) {
        self.own_found = insert_then_find(&mut self.pass, self.lead, self.own);
        self.other_found = self.pass.find(self.lead, &self.other);
    }
}

// Takes the pass of the last rank.
fn last_pass(
    lead: &FilterLead<u64>,
    passes: &mut Vec<FilterPass<Any, u64>>,
) -> Option<FilterPass<Any, u64>>
    requires of { AreOf (λ p. p.pass) lead.now.lead passes.old.items }
    ensures of { AreOf (λ p. p.pass) lead.now.lead passes.new.items }
    ensures last { IfSome result (λ p. IsIn p.pass lead.now.lead × ((view p.pass).rank ≡ length passes.new.items)) }
    ensures fewer { IfSome result (λ p. length passes.old.items ≡ length passes.new.items + 1) }
    ensures none { IsNone result → length passes.new.items ≡ length passes.old.items }
{
    let Some(pass) = passes.pop() else {
        return None;
    };
    Some(pass)
}

// A kit for each pass, the last rank first. Each inserts its own key, and asks for the next.
fn askers<'a>(
    alloc: Global,
    lead: &'a FilterLead<u64>,
    mut passes: Vec<FilterPass<Any, u64>>,
    first: u64,
) -> Result<Vec<Asker<'a>>, AllocError>
    requires of { AreOf (λ p. p.pass) lead.now.lead passes.items }
    ensures ready { IfOk result (λ kits. All (λ k. IsIn k.pass.pass k.lead.now.lead) kits.items) }
{
    let mut kits = Vec::new(alloc);
    while let Some(pass) = last_pass(lead, &mut passes) {
        let own = first.wrapping_add(u64::from(pass.rank()));
        kits.push(Asker {
            lead,
            pass,
            own,
            other: own.wrapping_add(1000),
            own_found: false,
            other_found: false,
        })?;
    }
    Ok(kits)
}

#[test]
fn ranks_find_what_they_insert_side_by_side(rt: HostRuntime) -> Result<(), Fail> {
    let home = FilterHome::<u64>::new(rt.alloc(), 4, 256)?;
    let Ok((lead, passes)) = home.begin::<Any>(rt.alloc()) else {
        return Err(Fail::new("no memory"));
    };
    let mut kits = askers(rt.alloc(), &lead, passes, 7)?;
    superstep(&rt, kits.as_mut_slice(), &Always);
    let mut own = 0u32;
    let mut others = 0u32;
    for kit in kits.as_slice() {
        if kit.own_found {
            own = own.wrapping_add(1);
        }
        if kit.other_found {
            others = others.wrapping_add(1);
        }
    }
    assert_eq!(rt; own, 4);
    assert_eq!(rt; others, 0);
    Ok(())
}

// Each rank inserts a key, the last rank last.
fn each_inserts(
    lead: &FilterLead<u64>,
    passes: &mut Vec<FilterPass<Any, u64>>,
    first: u64,
) -> Result<(), AllocError>
    requires of { AreOf (λ p. p.pass) lead.now.lead passes.old.items }
    ensures of { IfOk result (λ _. AreOf (λ p. p.pass) lead.now.lead passes.new.items) }
    ensures all { IfOk result (λ _. length passes.new.items ≡ length passes.old.items) }
{
    let Some(mut pass) = last_pass(lead, passes) else {
        return Ok(());
    };
    let key = first.wrapping_add(u64::from(pass.rank()));
    each_inserts(lead, passes, first)?;
    pass.insert(lead, &key);
    passes.push(pass)?;
    Ok(())
}

// How many of the ranks find a key.
fn finders(
    lead: &FilterLead<u64>,
    passes: &mut Vec<FilterPass<Any, u64>>,
    key: u64,
) -> Result<u32, AllocError>
    requires of { AreOf (λ p. p.pass) lead.now.lead passes.old.items }
    ensures of { IfOk result (λ _. AreOf (λ p. p.pass) lead.now.lead passes.new.items) }
    ensures all { IfOk result (λ _. length passes.new.items ≡ length passes.old.items) }
{
    let Some(mut pass) = last_pass(lead, passes) else {
        return Ok(0);
    };
    let found = finders(lead, passes, key)?;
    let here = pass.find(lead, &key);
    passes.push(pass)?;
    Ok(found.wrapping_add(u32::from(here)))
}

#[test]
fn all_ranks_find_after_a_turn_what_each_inserted(rt: HostRuntime) -> Result<(), Fail> {
    let home = FilterHome::<u64>::new(rt.alloc(), 4, 256)?;
    let Ok((lead, mut passes)) = home.begin::<Any>(rt.alloc()) else {
        return Err(Fail::new("no memory"));
    };
    each_inserts(&lead, &mut passes, 7)?;
    let Ok((lead, mut passes)) = lead.turn::<Any, Any>(rt.alloc(), passes) else {
        return Err(Fail::new("no memory"));
    };
    assert_eq!(rt; finders(&lead, &mut passes, 7)?, 4);
    assert_eq!(rt; finders(&lead, &mut passes, 8)?, 4);
    assert_eq!(rt; finders(&lead, &mut passes, 9)?, 4);
    assert_eq!(rt; finders(&lead, &mut passes, 10)?, 4);
    assert_eq!(rt; finders(&lead, &mut passes, 1007)?, 0);
    lead.end::<Any>(passes);
    Ok(())
}

// The calls of one rank on a filter of one block, and what they answer.
fn calls(pass: &mut FilterPass<Any, u64>, lead: &FilterLead<u64>) -> [bool; 5]
    requires of { IsIn pass.old.pass lead.now.lead }
    ensures of { IsIn pass.new.pass lead.now.lead }
    ensures rank { (view pass.new.pass).rank ≡ (view pass.old.pass).rank }
{
    let first = pass.insert(lead, &1);
    let other = pass.find(lead, &3);
    let again = pass.insert(lead, &1);
    let found = pass.find(lead, &1);
    let second = pass.insert(lead, &3);
    [first, other, again, found, second]
}

// The last rank makes these calls.
fn last_calls(
    lead: &FilterLead<u64>,
    passes: &mut Vec<FilterPass<Any, u64>>,
) -> Result<[bool; 5], Fail>
    requires of { AreOf (λ p. p.pass) lead.now.lead passes.old.items }
    ensures of { IfOk result (λ _. AreOf (λ p. p.pass) lead.now.lead passes.new.items) }
    ensures all { IfOk result (λ _. length passes.new.items ≡ length passes.old.items) }
{
    let Some(mut pass) = last_pass(lead, passes) else {
        return Err(Fail::new("no pass"));
    };
    let answers = calls(&mut pass, lead);
    passes.push(pass)?;
    Ok(answers)
}

#[test]
fn a_filter_of_one_block_answers(rt: HostRuntime) -> Result<(), Fail> {
    let home = FilterHome::<u64>::new(rt.alloc(), 1, 1)?;
    let Ok((lead, mut passes)) = home.begin::<Any>(rt.alloc()) else {
        return Err(Fail::new("no memory"));
    };
    assert_eq!(rt;
        last_calls(&lead, &mut passes)?,
        [false, false, true, true, false]
    );
    let Ok((lead, mut passes)) = lead.turn::<Any, Any>(rt.alloc(), passes) else {
        return Err(Fail::new("no memory"));
    };
    assert_eq!(rt;
        last_calls(&lead, &mut passes)?,
        [true, true, true, true, true]
    );
    lead.end::<Any>(passes);
    Ok(())
}
