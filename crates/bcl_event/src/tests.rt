//! The sequential objects on short runs.

ghost use Rattle.bcl_words.specs.Numbers.{one_word};
ghost use Rattle.std.specs.Prelude.{refl};

use crate::marks::bits_of;
use crate::{
    ArrayCall, ArrayReply, FilterCall, FilterReply, MapCall, MapReply, QueueCall, QueueReply,
    SeqArray, SeqFilter, SeqMap, SeqQueue, calls_are_those_of_the_ranks, inserted_keys_are_present,
    items_are_taken_in_order, maps_with_room_are_never_full, merges_leave_folds,
    numbers_make_numbers, numbers_name_promises, stored_values_are_found,
};
use bcl_words::{MergeLaw, hash};
use std::test::Fail;

// The law by which any two numbers become 0.
struct Nought;

impl MergeLaw<u64> for Nought {
    ghost op = { λ _ _. one_word 0 };

    ghost closed = { λ _ _ _ _. refl };

    ghost commutative = { λ _ _ _ _. refl };

    ghost associative = { λ _ _ _ _ _ _. refl };
}

#[test]
fn a_map_replaces_and_is_full(rt: HostRuntime) -> Result<(), Fail> {
    let mut map = SeqMap::<u64, u64>::new(rt.alloc(), 1)?;
    let merge = |_: u64, _: u64| 0;
    let reply = map.step::<Nought, _>(&MapCall::Insert(3, 1), &merge)?;
    assert_eq!(rt; reply, MapReply::New);
    let reply = map.step::<Nought, _>(&MapCall::Insert(3, 2), &merge)?;
    assert_eq!(rt; reply, MapReply::Replaced);
    let reply = map.step::<Nought, _>(&MapCall::Insert(6, 1), &merge)?;
    assert_eq!(rt; reply, MapReply::Full);
    let reply = map.step::<Nought, _>(&MapCall::Find(6), &merge)?;
    assert_eq!(rt; reply, MapReply::Absent);
    let reply = map.step::<Nought, _>(&MapCall::Find(3), &merge)?;
    assert_eq!(rt; reply, MapReply::Value(2));
    Ok(())
}

#[test]
fn a_map_merges_and_adds(rt: HostRuntime) -> Result<(), Fail> {
    let mut map = SeqMap::<u64, u64>::new(rt.alloc(), 2)?;
    let merge = |_: u64, _: u64| 0;
    let reply = map.step::<Nought, _>(&MapCall::Merge(3, 5), &merge)?;
    assert_eq!(rt; reply, MapReply::New);
    let reply = map.step::<Nought, _>(&MapCall::Add(3, u64::MAX), &merge)?;
    assert_eq!(rt; reply, MapReply::Was(5));
    let reply = map.step::<Nought, _>(&MapCall::Find(3), &merge)?;
    assert_eq!(rt; reply, MapReply::Value(4));
    let reply = map.step::<Nought, _>(&MapCall::Merge(3, 7), &merge)?;
    assert_eq!(rt; reply, MapReply::Replaced);
    let reply = map.step::<Nought, _>(&MapCall::Find(3), &merge)?;
    assert_eq!(rt; reply, MapReply::Value(0));
    stored_values_are_found();
    maps_with_room_are_never_full();
    merges_leave_folds();
    calls_are_those_of_the_ranks();
    numbers_make_numbers();
    numbers_name_promises();
    let reply = map.step::<Nought, _>(&MapCall::Add(6, 1), &merge)?;
    assert_eq!(rt; reply, MapReply::Absent);
    Ok(())
}

#[test]
fn a_queue_wears(rt: HostRuntime) -> Result<(), Fail> {
    let mut queue = SeqQueue::<u64>::new(rt.alloc(), 1, (1 << 62) - 1)?;
    let answer = queue.step(&QueueCall::Push(7))?;
    assert_eq!(rt; answer, (QueueReply::Put((1 << 62) - 1), None));
    let answer = queue.step(&QueueCall::Push(8))?;
    assert_eq!(rt; answer, (QueueReply::Worn, None));
    let answer = queue.step(&QueueCall::Pop)?;
    assert_eq!(rt; answer, (QueueReply::Took((1 << 62) - 1), Some(7)));
    let answer = queue.step(&QueueCall::Push(8))?;
    assert_eq!(rt; answer, (QueueReply::Worn, None));
    let answer = queue.step(&QueueCall::Pop)?;
    assert_eq!(rt; answer, (QueueReply::Empty, None));
    Ok(())
}

#[test]
fn a_queue_is_full(rt: HostRuntime) -> Result<(), Fail> {
    let mut queue = SeqQueue::<u64>::new(rt.alloc(), 2, 0)?;
    let answer = queue.step(&QueueCall::Push(1))?;
    assert_eq!(rt; answer, (QueueReply::Put(0), None));
    let answer = queue.step(&QueueCall::Push(2))?;
    assert_eq!(rt; answer, (QueueReply::Put(1), None));
    items_are_taken_in_order();
    let answer = queue.step(&QueueCall::Push(3))?;
    assert_eq!(rt; answer, (QueueReply::Full, None));
    let answer = queue.step(&QueueCall::Pop)?;
    assert_eq!(rt; answer, (QueueReply::Took(0), Some(1)));
    Ok(())
}

#[test]
fn an_array_counts(rt: HostRuntime) -> Result<(), Fail> {
    let mut array = SeqArray::<u64>::new(rt.alloc(), 4, 5)?;
    assert_eq!(rt; array.step(&ArrayCall::FetchAdd(3, 2)), ArrayReply::Was(5));
    assert_eq!(rt; array.step(&ArrayCall::FetchMin(3, 4)), ArrayReply::Was(7));
    assert_eq!(rt; array.step(&ArrayCall::Read(3)), ArrayReply::Value(4));
    assert_eq!(rt; array.step(&ArrayCall::Write(0, 9)), ArrayReply::Done);
    assert_eq!(rt; array.step(&ArrayCall::Read(0)), ArrayReply::Value(9));
    assert_eq!(rt; array.step(&ArrayCall::Read(1)), ArrayReply::Value(5));
    Ok(())
}

#[test]
fn keys_have_their_bits(rt: HostRuntime) {
    assert_eq!(rt; bits_of(hash(&[0])), [0, 0, 0, 0]);
    assert_eq!(rt; bits_of(hash(&[1])), [11, 62, 37, 15]);
    assert_eq!(rt; bits_of(hash(&[3])), [35, 59, 47, 46]);
}

#[test]
fn a_filter_knows_what_was_inserted(rt: HostRuntime) -> Result<(), Fail> {
    let mut filter = SeqFilter::<u64>::new(rt.alloc(), 1)?;
    let reply = filter.step(&FilterCall::Insert(1))?;
    assert_eq!(rt; reply, FilterReply::NotPresent);
    let reply = filter.step(&FilterCall::Find(3))?;
    assert_eq!(rt; reply, FilterReply::NotPresent);
    let reply = filter.step(&FilterCall::Insert(1))?;
    assert_eq!(rt; reply, FilterReply::Present);
    inserted_keys_are_present();
    let reply = filter.step(&FilterCall::Find(1))?;
    assert_eq!(rt; reply, FilterReply::Present);
    let reply = filter.step(&FilterCall::Insert(3))?;
    assert_eq!(rt; reply, FilterReply::NotPresent);
    Ok(())
}
