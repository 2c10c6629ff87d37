ghost use Rattle.std.specs.Prelude.{◌≡◌, ℕ, ◌<◌, length, IfOk};
ghost use mathlib.Core.Option.{some};
ghost use lib.ListN.{get_elem?};
ghost use Rattle.bcl_phase.specs.Parts.{lead_key};
ghost use Rattle.bcl_tally.specs.Parts.{pass_view, IsOf};

use crate::{
    Adder, Seen, Tally, TallyPass, TryAdd, clear, open, read, read_both, swap_both, try_word,
};
use bcl_phase::{Always, Any, Kit, Lead, Own, superstep};
use bcl_words::NoMemory;
use std::alloc::AllocError;
use std::test::Fail;

// The one rank adds 5 and then three times 2, and answers what it found in between.
fn adds(
    lead: &Lead<Tally>,
    mut passes: Vec<TallyPass<Any>>,
) -> Result<(Vec<TallyPass<Any>>, [Result<u64, u64>; 4]), AllocError>
    requires one { length passes.items ≡ 1 }
    requires some_rank { 0 < lead_key lead.now }
    requires dealt { (i : ℕ) (p : _) → get_elem? passes.items i ≡ some p → IsOf p lead.now × ((pass_view p).rank ≡ i) }
    ensures one { IfOk result (λ r. length r.0.items ≡ 1) }
    ensures dealt { IfOk result (λ r. (i : ℕ) (p : _) → get_elem? r.0.items i ≡ some p → IsOf p lead.now × ((pass_view p).rank ≡ i)) }
{
    let Some(mut pass) = passes.pop() else {
        unreachable!()
    };
    pass.add(lead, 0, 5);
    let found = pass.touch(lead, 0, 5);
    pass.add_often(lead, 0, 2, 3);
    passes.push(pass)?;
    Ok((passes, found))
}

// The one rank exchanges its number for 7, and answers what it was.
fn swaps(
    lead: &Lead<Tally>,
    mut passes: Vec<TallyPass<Own>>,
) -> Result<(Vec<TallyPass<Own>>, u64), AllocError>
    requires one { length passes.items ≡ 1 }
    requires dealt { (i : ℕ) (p : _) → get_elem? passes.items i ≡ some p → IsOf p lead.now × ((pass_view p).rank ≡ i) }
    ensures one { IfOk result (λ r. length r.0.items ≡ 1) }
    ensures dealt { IfOk result (λ r. (i : ℕ) (p : _) → get_elem? r.0.items i ≡ some p → IsOf p lead.now × ((pass_view p).rank ≡ i)) }
{
    let Some(mut pass) = passes.pop() else {
        unreachable!()
    };
    let was = pass.swap(lead, 7);
    passes.push(pass)?;
    Ok((passes, was))
}

#[test]
fn a_phase_turns_into_the_next_and_ends(rt: HostRuntime) -> Result<(), Fail> {
    let home = open(rt.alloc(), 1)?;
    assert_eq!(rt; home.layout().ranks, 1);
    let Ok((lead, passes)) = home.begin::<Any, TallyPass<Any>>(rt.alloc()) else {
        return Err(NoMemory.into());
    };
    let (passes, found) = adds(&lead, passes)?;
    assert!(rt; found == [Ok(5), Ok(5), Ok(5), Ok(5)]);
    let Ok((lead, passes)) = lead.turn::<Any, Own, TallyPass<Any>, TallyPass<Own>>(
        rt.alloc(),
        passes,
    ) else {
        return Err(NoMemory.into());
    };
    let (passes, was) = swaps(&lead, passes)?;
    assert_eq!(rt; was, 11);
    let mut home = lead.end::<Own, TallyPass<Own>>(passes);
    assert_eq!(rt; read(&mut home, 0), 7);
    clear(&mut home, 0, 3);
    assert_eq!(rt; read(&mut home, 0), 3);
    Ok(())
}

// Each of two ranks has a kit, and both add side by side.
#[test]
fn two_ranks_add_side_by_side(rt: HostRuntime) -> Result<(), Fail> {
    let home = open(rt.alloc(), 2)?;
    let Ok((lead, mut passes)) = home.begin::<Any, TallyPass<Any>>(rt.alloc()) else {
        return Err(NoMemory.into());
    };
    let Some(second) = passes.pop() else {
        unreachable!()
    };
    let Some(first) = passes.pop() else {
        unreachable!()
    };
    let mut kits = [
        Adder {
            lead: &lead,
            pass: first,
            n: 5,
        },
        Adder {
            lead: &lead,
            pass: second,
            n: 5,
        },
    ];
    superstep(&rt, &mut kits, &Always);
    assert_eq!(rt; kits[1].rank(), 1);
    assert_eq!(rt; kits[1].pass.layout().per_rank, 1);
    Ok(())
}

#[test]
fn the_numbers_of_two_ranks_are_read_together(rt: HostRuntime) -> Result<(), Fail> {
    let mut home = open(rt.alloc(), 2)?;
    clear(&mut home, 0, 3);
    clear(&mut home, 1, 4);
    assert!(rt; read_both(&mut home, 0, 1) == (3, 4));
    assert!(rt; read_both(&mut home, 1, 1) == (4, 4));
    swap_both(&mut home, (0, 5), (1, 6));
    assert!(rt; read_both(&mut home, 0, 1) == (5, 6));
    Ok(())
}

#[test]
fn a_word_is_as_it_was_once_it_was_tried(rt: HostRuntime) -> Result<(), Fail> {
    let mut home = open(rt.alloc(), 2)?;
    clear(&mut home, 1, 4);
    let (mut home, found) = try_word(home, 1, 9);
    assert_eq!(rt; found, 9);
    assert!(rt; read_both(&mut home, 0, 1) == (0, 4));
    Ok(())
}

#[test]
fn a_try_adds_to_an_even_number_alone(rt: HostRuntime) -> Result<(), Fail> {
    let home = open(rt.alloc(), 1)?;
    let Ok((lead, mut passes)) = home.begin::<Any, TallyPass<Any>>(rt.alloc()) else {
        return Err(NoMemory.into());
    };
    let Some(mut pass) = passes.pop() else {
        unreachable!()
    };
    assert!(rt; pass.try_add(&lead, 0, 3) == TryAdd::Added(0));
    assert!(rt;
        pass.try_add(&lead, 0, 1)
            == TryAdd::Busy(Seen {
                first: 3,
                second: 3
            })
    );
    Ok(())
}
