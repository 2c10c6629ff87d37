use crate::{
    Add, Always, Any, Find, FindInsert, Gate, Home, Kit, Lead, Own, Pass, Phased, Pop, Promise,
    Push, PushPop, Read, superstep, superstep_all,
};
use std::sync::atomic::{AtomicU64, Ordering};
use std::test::Fail;

// Holds each of the ranks 0 and 1 until the other has entered, and counts how many of the two saw the other.
#[derive(Drop)]
struct Meeting {
    zero: AtomicU64,
    one: AtomicU64,
    met: AtomicU64,
}

impl Meeting {
    fn new() -> Self {
        Meeting {
            zero: AtomicU64::new(0),
            one: AtomicU64::new(0),
            met: AtomicU64::new(0),
        }
    }

    fn wait_for(&self, mine: &AtomicU64, other: &AtomicU64) {
        mine.store(1, Ordering::SeqCst);
        for _ in 0..100_000_000u64 {
            if other.load(Ordering::SeqCst) == 1 {
                self.met.fetch_add(1, Ordering::SeqCst);
                return;
            }
        }
    }
}

impl Gate for Meeting {
    fn enter(&self, rank: u32) {
        if rank == 0 {
            self.wait_for(&self.zero, &self.one);
        } else if rank == 1 {
            self.wait_for(&self.one, &self.zero);
        }
    }
}

#[derive(Clone, Copy)]
struct Count {
    rank: u32,
    count: u32,
}

impl Kit for Count {
    ghost use Rattle.std.specs.Prelude.{◌≡◌, ◌+◌, ◌<◌};

    ghost ready = { λ k. k.count < 100 };

    ghost step = { λ k l. (l.rank ≡ k.rank) × (l.count ≡ k.count + 1) };

    fn rank(&self) -> u32 {
        self.rank
    }

    fn part(&mut self) {
        self.count += 1;
    }
}

#[test]
fn two_ranks_meet_in_a_superstep(rt: HostRuntime) {
    let gate = Meeting::new();
    let mut kits = [Count { rank: 0, count: 0 }, Count { rank: 1, count: 10 }];
    superstep(&rt, &mut kits, &gate);
    assert_eq!(rt; gate.met.load(Ordering::SeqCst), 2);
    prove_eq!(kits[0].count, 1);
    prove_eq!(kits[1].count, 11);
}

#[test]
fn each_kit_does_its_part(rt: HostRuntime) {
    let mut kits = [
        Count { rank: 2, count: 0 },
        Count { rank: 1, count: 10 },
        Count { rank: 0, count: 20 },
    ];
    superstep(&rt, &mut kits, &Always);
    prove_eq!(kits[2].count, 21);
    assert_eq!(rt; kits[0].count, 1);
}

#[test]
fn kits_in_a_list_do_their_parts(rt: HostRuntime) -> Result<(), Fail> {
    let mut kits = Vec::new(rt.alloc());
    kits.push(Count { rank: 0, count: 0 })?;
    kits.push(Count { rank: 1, count: 10 })?;
    superstep_all(&rt, &mut kits, &Always);
    let counts = [
        kits.pop().map(|kit| kit.count),
        kits.pop().map(|kit| kit.count),
    ];
    assert!(rt; counts == [Some(11), Some(1)]);
    Ok(())
}

// Counts how often each of two ranks entered.
#[derive(Drop)]
struct Doors {
    zero: AtomicU64,
    one: AtomicU64,
}

impl Doors {
    fn door(&self, rank: u32) -> &AtomicU64 {
        if rank == 0 { &self.zero } else { &self.one }
    }
}

impl Gate for Doors {
    fn enter(&self, rank: u32) {
        self.door(rank).fetch_add(1, Ordering::SeqCst);
    }
}

// Notes in its part how often its rank had entered.
#[derive(Clone, Copy)]
struct Comer<'a> {
    doors: &'a Doors,
    rank: u32,
    entered: u64,
}

impl<'a> Kit for Comer<'a> {
    ghost ready = { λ _. Unit {0} };

    ghost step = { λ _ _. Unit {0} };

    fn rank(&self) -> u32 {
        self.rank
    }

    fn part(&mut self) {
        self.entered = self.doors.door(self.rank).load(Ordering::SeqCst);
    }
}

#[test]
fn each_rank_enters_before_its_part(rt: HostRuntime) {
    let doors = Doors {
        zero: AtomicU64::new(0),
        one: AtomicU64::new(0),
    };
    let comer = |rank: u32| Comer {
        doors: &doors,
        rank,
        entered: 0,
    };
    let mut kits = [comer(1), comer(0)];
    superstep(&rt, &mut kits, &doors);
    assert_eq!(rt; [kits[0].entered, kits[1].entered], [1, 1]);
    superstep(&rt, &mut kits, &doors);
    assert_eq!(rt; [kits[0].entered, kits[1].entered], [2, 2]);
}

fn code<P: Promise>() -> u64 {
    P::CODE
}

#[test]
fn promises_are_numbered_in_order(rt: HostRuntime) {
    let codes = [
        code::<Find>(),
        code::<Own>(),
        code::<Add>(),
        code::<FindInsert>(),
        code::<Push>(),
        code::<Pop>(),
        code::<PushPop>(),
        code::<Read>(),
        code::<Any>(),
    ];
    assert!(rt; codes == [1, 2, 3, 4, 5, 6, 7, 8, 9]);
}

fn is_send<T: Send>() {}

fn is_sync<T: Sync>() {}

// Under any rule and promise.
fn threads_share<R: Phased, P: Promise + Send>() {
    is_send::<Home<R>>();
    is_send::<Lead<R>>();
    is_sync::<Lead<R>>();
    is_send::<Pass<R, P>>();
}
