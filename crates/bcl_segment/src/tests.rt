ghost use Rattle.std.specs.Prelude.{◌≡◌, ◌<◌, IfOk};
ghost use Rattle.bcl_segment.specs.Parts.{heads_of, layout_of, IsSeatOf};

use crate::rising::{Rising, look, raise};
use crate::{Free, GlobalPtr, Layout, Resting, Rule, Seat, Segments, Spot};
use bcl_words::NoMemory;
use std::alloc::Global;
use std::marker::Brand;
use std::mem::size_of;
use std::test::Fail;
use std::thread::join;

const LAYOUT: Layout = Layout {
    ranks: 2,
    per_rank: 3,
};

const HEAD: Spot = Spot::Head(0);

const LAST: GlobalPtr = GlobalPtr { rank: 1, offset: 2 };

// One head word, and three words for each of two ranks.
fn segments(alloc: Global, words: [u64; 7]) -> Result<(Segments<Free>, Seat<Free>), NoMemory>
    ensures heads { IfOk result (λ r. heads_of r.0 ≡ 1) }
    ensures layout { IfOk result (λ r. ((layout_of r.0).ranks ≡ 2) × ((layout_of r.0).per_rank ≡ 3)) }
    ensures seat { IfOk result (λ r. IsSeatOf r.1 r.0) }
{
    Segments::new(alloc, LAYOUT, 1, Vec::from_array(alloc, words)?, &())
}

#[test]
fn the_last_word_of_rank_1_is_at_place_5(rt: HostRuntime) {
    assert_eq!(rt; LAYOUT.place(LAST), 5);
    assert!(rt; LAYOUT.ptr(5) == LAST);
}

#[test]
fn words_stand_in_the_order_given(rt: HostRuntime) -> Result<(), Fail> {
    let (segments, mut seat) = segments(rt.alloc(), [10, 20, 21, 22, 30, 31, 32])?;
    assert_eq!(rt; segments.get::<Brand>(&mut seat, HEAD), 10);
    let first = Spot::At(GlobalPtr { rank: 0, offset: 0 });
    assert_eq!(rt; segments.get::<Brand>(&mut seat, first), 20);
    let next = Spot::At(GlobalPtr { rank: 1, offset: 0 });
    assert_eq!(rt; segments.get::<Brand>(&mut seat, next), 30);
    assert_eq!(rt; segments.get::<Brand>(&mut seat, Spot::At(LAST)), 32);
    Ok(())
}

#[test]
fn each_step_answers_the_word_that_was_there(rt: HostRuntime) -> Result<(), Fail> {
    let (segments, mut seat) = segments(rt.alloc(), [0; 7])?;
    segments.put::<Brand>(&mut seat, HEAD, 5);
    let mut seat = seat.rest().wake();
    assert_eq!(rt; segments.fetch_add::<Brand>(&mut seat, HEAD, 2), 5);
    assert!(rt; segments.cas::<Brand>(&mut seat, HEAD, 5, 9) == Err(7));
    assert_eq!(rt; segments.fetch_min::<Brand>(&mut seat, HEAD, 4), 7);
    assert_eq!(rt; segments.get::<Brand>(&mut seat, HEAD), 4);
    Ok(())
}

#[test]
fn sums_and_differences_wrap(rt: HostRuntime) -> Result<(), Fail> {
    let (segments, mut seat) = segments(rt.alloc(), [0; 7])?;
    let last = Spot::At(LAST);
    assert_eq!(rt; segments.fetch_or::<Brand>(&mut seat, last, 6), 0);
    assert_eq!(rt; segments.fetch_or::<Brand>(&mut seat, last, 3), 6);
    assert_eq!(rt; segments.fetch_sub::<Brand>(&mut seat, last, 8), 7);
    assert_eq!(rt; segments.fetch_add::<Brand>(&mut seat, last, 3), u64::MAX);
    assert!(rt; segments.cas::<Brand>(&mut seat, last, 2, 9) == Ok(2));
    assert_eq!(rt; segments.get::<Brand>(&mut seat, last), 9);
    assert_eq!(rt; segments.get::<Brand>(&mut seat, HEAD), 0);
    Ok(())
}

#[test]
fn a_seat_has_no_bytes(rt: HostRuntime) {
    assert_eq!(rt; size_of::<Seat<Free>>(), 0);
}

fn is_send<T: Send>() {}

fn is_sync<T: Sync>() {}

// Under any rule.
fn threads_share<R: Rule>() {
    is_send::<Segments<R>>();
    is_sync::<Segments<R>>();
    is_send::<Seat<R>>();
    is_send::<Resting<R>>();
    is_sync::<Resting<R>>();
}

// Adds 1 to the first head word so many times.
fn add(segments: &Segments<Free>, mut seat: Seat<Free>, times: u32) -> Seat<Free>
    requires head { 0 < heads_of segments.now }
    requires seat { IsSeatOf seat segments.now }
    ensures seat { IsSeatOf result segments.now }
{
    for _ in 0..times {
        segments.fetch_add::<Brand>(&mut seat, HEAD, 1);
    }
    seat
}

#[test]
fn two_threads_add_to_one_word(rt: HostRuntime) -> Result<(), Fail> {
    threads_share::<Free>();
    let (segments, mut mine) = segments(rt.alloc(), [0; 7])?;
    let other = segments.split::<Free>(&mut mine);
    let (mut mine, other) = join(
        &rt,
        || add(&segments, mine, 1000),
        || add(&segments, other, 500),
    );
    segments.join::<Free>(&mut mine, other);
    assert_eq!(rt; segments.get::<Brand>(&mut mine, HEAD), 1500);
    Ok(())
}

#[test]
fn a_counter_that_rises_is_never_found_lower(rt: HostRuntime) -> Result<(), Fail> {
    let layout = Layout {
        ranks: 1,
        per_rank: 0,
    };
    let words = Vec::from_array(rt.alloc(), [3])?;
    let (counter, mut seat) = Segments::<Rising>::new(rt.alloc(), layout, 1, words, &())?;
    assert_eq!(rt; look(&counter, &mut seat), 3);
    assert!(rt; raise(&counter, &mut seat, 3, 8));
    assert!(rt; !raise(&counter, &mut seat, 3, 9));
    assert_eq!(rt; look(&counter, &mut seat), 8);
    Ok(())
}
