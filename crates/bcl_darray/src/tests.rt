ghost use Rattle.std.specs.Prelude.{◌≡◌, ◌≤◌, ℕ, length, IfOk};
ghost use mathlib.Core.Option.{some};
ghost use lib.ListN.{get_elem?};
ghost use Rattle.bcl_darray.specs.Array.{size};
ghost use Rattle.bcl_darray.specs.Parts.{home_key, lead_key, lead_layout, pass_view, IsOf};

use crate::{ArrayHome, ArrayLead, ArrayPass};
use bcl_phase::{Any, Own, Read};
use std::alloc::Global;
use std::test::Fail;

// The calls of one rank on an array of at least four numbers, and what they answer.
fn calls(pass: &mut ArrayPass<Any, u64>, lead: &ArrayLead<u64>) -> [u64; 5]
    requires of { IsOf pass.old lead.now }
    requires four { 4 ≤ size (lead_key lead.now) }
    ensures of { IsOf pass.new lead.now }
    ensures rank { (pass_view pass.new).rank ≡ (pass_view pass.old).rank }
{
    let was = pass.fetch_add(lead, 3, 2);
    let sum = pass.fetch_min(lead, 3, 4);
    let least = pass.read(lead, 3);
    pass.write(lead, 0, 9);
    let written = pass.read(lead, 0);
    let other = pass.read(lead, 1);
    [was, sum, least, written, other]
}

// The last rank makes these calls.
fn last_calls(
    lead: &ArrayLead<u64>,
    passes: &mut Vec<ArrayPass<Any, u64>>,
) -> Result<[u64; 5], Fail>
    requires four { 4 ≤ size (lead_key lead.now) }
    requires of { (i : ℕ) (p : _) → get_elem? passes.old.items i ≡ some p → IsOf p lead.now × ((pass_view p).rank ≡ i) }
    ensures of { IfOk result (λ _. (i : ℕ) (p : _) → get_elem? passes.new.items i ≡ some p → IsOf p lead.now × ((pass_view p).rank ≡ i)) }
    ensures all { IfOk result (λ _. length passes.new.items ≡ length passes.old.items) }
{
    let Some(mut pass) = passes.pop() else {
        return Err(Fail::new("no pass"));
    };
    let answers = calls(&mut pass, lead);
    passes.push(pass)?;
    Ok(answers)
}

// What a rank reads of four numbers.
fn numbers(pass: &mut ArrayPass<Read, u64>, lead: &ArrayLead<u64>) -> [u64; 4]
    requires four { 4 ≤ size (lead_key lead.now) }
    requires of { IsOf pass.old lead.now }
    ensures of { IsOf pass.new lead.now }
    ensures rank { (pass_view pass.new).rank ≡ (pass_view pass.old).rank }
{
    [
        pass.read(lead, 0),
        pass.read(lead, 1),
        pass.read(lead, 2),
        pass.read(lead, 3),
    ]
}

// What the last rank reads of them.
fn last_numbers(
    lead: &ArrayLead<u64>,
    passes: &mut Vec<ArrayPass<Read, u64>>,
) -> Result<[u64; 4], Fail>
    requires four { 4 ≤ size (lead_key lead.now) }
    requires of { (i : ℕ) (p : _) → get_elem? passes.old.items i ≡ some p → IsOf p lead.now × ((pass_view p).rank ≡ i) }
    ensures of { IfOk result (λ _. (i : ℕ) (p : _) → get_elem? passes.new.items i ≡ some p → IsOf p lead.now × ((pass_view p).rank ≡ i)) }
    ensures all { IfOk result (λ _. length passes.new.items ≡ length passes.old.items) }
{
    let Some(mut pass) = passes.pop() else {
        return Err(Fail::new("no pass"));
    };
    let found = numbers(&mut pass, lead);
    passes.push(pass)?;
    Ok(found)
}

#[test]
fn numbers_are_added_to_lessened_written_and_read(rt: HostRuntime) -> Result<(), Fail> {
    let home = ArrayHome::<u64>::new(rt.alloc(), 2, 2, 5)?;
    let Ok((lead, mut passes)) = home.begin::<Any>(rt.alloc()) else {
        return Err(Fail::new("no memory"));
    };
    assert_eq!(rt; last_calls(&lead, &mut passes)?, [5, 7, 4, 9, 5]);
    let Ok((lead, mut passes)) = lead.turn::<Any, Read>(rt.alloc(), passes) else {
        return Err(Fail::new("no memory"));
    };
    assert_eq!(rt; last_numbers(&lead, &mut passes)?, [9, 5, 5, 4]);
    lead.end::<Read>(passes);
    Ok(())
}

// A number of two words, and the words of neither are 0.
const WIDE: u128 = 7 << 64 | 9;

// Writes the number where the index is the rank's own, and reads it there.
fn write_then_read(
    pass: &mut ArrayPass<Own, u128>,
    lead: &ArrayLead<u128>,
    index: u32,
) -> Option<u128>
    requires of { IsOf pass.old lead.now }
    ensures of { IsOf pass.new lead.now }
    ensures rank { (pass_view pass.new).rank ≡ (pass_view pass.old).rank }
{
    if !pass.is_mine(index) {
        return None;
    }
    pass.write(lead, index, &WIDE);
    Some(pass.read(lead, index))
}

// The last rank does so at two items.
fn own_calls(
    lead: &ArrayLead<u128>,
    passes: &mut Vec<ArrayPass<Own, u128>>,
) -> Result<[Option<u128>; 2], Fail>
    requires of { (i : ℕ) (p : _) → get_elem? passes.old.items i ≡ some p → IsOf p lead.now × ((pass_view p).rank ≡ i) }
    ensures of { IfOk result (λ _. (i : ℕ) (p : _) → get_elem? passes.new.items i ≡ some p → IsOf p lead.now × ((pass_view p).rank ≡ i)) }
    ensures all { IfOk result (λ _. length passes.new.items ≡ length passes.old.items) }
{
    let Some(mut pass) = passes.pop() else {
        return Err(Fail::new("no pass"));
    };
    let first = write_then_read(&mut pass, lead, 0);
    let second = write_then_read(&mut pass, lead, 1);
    passes.push(pass)?;
    Ok([first, second])
}

// What a rank reads of two items.
fn reads(pass: &mut ArrayPass<Read, u128>, lead: &ArrayLead<u128>) -> [u128; 2]
    requires two { 2 ≤ size (lead_key lead.now) }
    requires of { IsOf pass.old lead.now }
    ensures of { IsOf pass.new lead.now }
    ensures rank { (pass_view pass.new).rank ≡ (pass_view pass.old).rank }
{
    [pass.read(lead, 0), pass.read(lead, 1)]
}

// What the last rank reads of them.
fn read_calls(
    lead: &ArrayLead<u128>,
    passes: &mut Vec<ArrayPass<Read, u128>>,
) -> Result<[u128; 2], Fail>
    requires two { 2 ≤ size (lead_key lead.now) }
    requires of { (i : ℕ) (p : _) → get_elem? passes.old.items i ≡ some p → IsOf p lead.now × ((pass_view p).rank ≡ i) }
    ensures of { IfOk result (λ _. (i : ℕ) (p : _) → get_elem? passes.new.items i ≡ some p → IsOf p lead.now × ((pass_view p).rank ≡ i)) }
    ensures all { IfOk result (λ _. length passes.new.items ≡ length passes.old.items) }
{
    let Some(mut pass) = passes.pop() else {
        return Err(Fail::new("no pass"));
    };
    let found = reads(&mut pass, lead);
    passes.push(pass)?;
    Ok(found)
}

#[test]
fn an_item_of_two_words_is_read_whole(rt: HostRuntime) -> Result<(), Fail> {
    let home = ArrayHome::<u128>::new(rt.alloc(), 2, 1, 3)?;
    let Ok((lead, mut passes)) = home.begin::<Own>(rt.alloc()) else {
        return Err(Fail::new("no memory"));
    };
    assert_eq!(rt; own_calls(&lead, &mut passes)?, [None, Some(WIDE)]);
    let Ok((lead, mut passes)) = lead.turn::<Own, Read>(rt.alloc(), passes) else {
        return Err(Fail::new("no memory"));
    };
    assert_eq!(rt; read_calls(&lead, &mut passes)?, [3, WIDE]);
    lead.end::<Read>(passes);
    Ok(())
}

// Begins a phase, and again where it is refused.
fn begun(
    alloc: Global,
    home: ArrayHome<u64>,
) -> Result<(ArrayLead<u64>, Vec<ArrayPass<Any, u64>>), Fail>
    ensures size { IfOk result (λ r. size (lead_key r.0) ≡ size (home_key home)) }
    ensures all { IfOk result (λ r. length r.1.items ≡ (lead_layout r.0).ranks) }
    ensures of { IfOk result (λ r. (i : ℕ) (p : _) → get_elem? r.1.items i ≡ some p → IsOf p r.0 × ((pass_view p).rank ≡ i)) }
{
    let home = match home.begin::<Any>(alloc) {
        Ok(begun) => return Ok(begun),
        Err(refused) => refused.home,
    };
    match home.begin::<Any>(alloc) {
        Ok(begun) => Ok(begun),
        Err(_) => Err(Fail::new("no memory")),
    }
}

// The same of the next phase.
fn turned(
    alloc: Global,
    lead: ArrayLead<u64>,
    passes: Vec<ArrayPass<Any, u64>>,
) -> Result<(ArrayLead<u64>, Vec<ArrayPass<Any, u64>>), Fail>
    requires all { length passes.items ≡ (lead_layout lead).ranks }
    requires of { (i : ℕ) (p : _) → get_elem? passes.items i ≡ some p → IsOf p lead × ((pass_view p).rank ≡ i) }
    ensures size { IfOk result (λ r. size (lead_key r.0) ≡ size (lead_key lead)) }
    ensures all { IfOk result (λ r. length r.1.items ≡ (lead_layout r.0).ranks) }
    ensures of { IfOk result (λ r. (i : ℕ) (p : _) → get_elem? r.1.items i ≡ some p → IsOf p r.0 × ((pass_view p).rank ≡ i)) }
{
    match lead.turn::<Any, Any>(alloc, passes) {
        Ok(turned) => Ok(turned),
        Err(refused) => begun(alloc, refused.home),
    }
}

// The answers are the same where memory fails once.
#[test]
fn a_refusal_loses_nothing(rt: HostRuntime) -> Result<(), Fail> {
    let home = ArrayHome::<u64>::new(rt.alloc(), 2, 2, 5)?;
    let (lead, mut passes) = begun(rt.alloc(), home)?;
    assert_eq!(rt; last_calls(&lead, &mut passes)?, [5, 7, 4, 9, 5]);
    let (lead, mut passes) = turned(rt.alloc(), lead, passes)?;
    assert_eq!(rt; last_calls(&lead, &mut passes)?, [4, 6, 4, 9, 5]);
    lead.end::<Any>(passes);
    Ok(())
}
