//! A map of a history that merges by sums, as the one caller of its sequential object sees it.

use bcl_event::{MapCall, MapReply, SeqMap};
use bcl_merge::{Sum, wrapping_sum};
use std::test::Fail;

#[test]
fn a_map_of_one_key_is_full(rt: HostRuntime) -> Result<(), Fail> {
    let mut map = SeqMap::<u64, u64>::new(rt.alloc(), 1)?;
    let merge = |a: u64, b: u64| wrapping_sum(a, b);
    let reply = map.step::<Sum, _>(&MapCall::Insert(3, 1), &merge)?;
    assert_eq!(rt; reply, MapReply::New);
    let reply = map.step::<Sum, _>(&MapCall::Insert(3, 2), &merge)?;
    assert_eq!(rt; reply, MapReply::Replaced);
    let reply = map.step::<Sum, _>(&MapCall::Insert(6, 1), &merge)?;
    assert_eq!(rt; reply, MapReply::Full);
    let reply = map.step::<Sum, _>(&MapCall::Find(6), &merge)?;
    assert_eq!(rt; reply, MapReply::Absent);
    let reply = map.step::<Sum, _>(&MapCall::Find(3), &merge)?;
    assert_eq!(rt; reply, MapReply::Value(2));
    Ok(())
}

#[test]
fn merged_values_are_summed(rt: HostRuntime) -> Result<(), Fail> {
    let mut map = SeqMap::<u64, u64>::new(rt.alloc(), 2)?;
    let merge = |a: u64, b: u64| wrapping_sum(a, b);
    let reply = map.step::<Sum, _>(&MapCall::Merge(3, 1), &merge)?;
    assert_eq!(rt; reply, MapReply::New);
    let reply = map.step::<Sum, _>(&MapCall::Merge(3, 2), &merge)?;
    assert_eq!(rt; reply, MapReply::Replaced);
    let reply = map.step::<Sum, _>(&MapCall::Find(3), &merge)?;
    assert_eq!(rt; reply, MapReply::Value(3));
    Ok(())
}
