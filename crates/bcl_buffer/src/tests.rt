//! Buffers of two ranks, with two buckets each: the keys 0 and 2 have their home at rank 0, and 3 and 6 at rank 1.

ghost use Rattle.std.specs.Prelude.{◌≡◌, ◌<◌, ◌≤◌, ◌^◌, IfOk};
ghost use Rattle.bcl_words.specs.Words.{Fits};
ghost use Rattle.bcl_segment.specs.Places.{places};
ghost use Rattle.bcl_buffer.specs.declared.buffer.State.TheVariants.{Filling};

use crate::{Buffer, exchange};
use bcl_segment::Layout;
use bcl_words::{NoMemory, Object};
use std::alloc::Global;
use std::test::Fail;

mod drain;
mod flush;

const SHAPE: Layout = Layout {
    ranks: 2,
    per_rank: 2,
};

// A buffer of a rank, with these pairs.
fn filled<K: Object, V: Object>(
    alloc: Global,
    shape: Layout,
    rank: u32,
    pairs: &[(K, V)],
) -> Result<Buffer<K, V>, NoMemory>
    requires key { Fits K.WORDS }
    requires rank { rank < shape.ranks }
    requires places { (1 ≤ places shape) × (places shape ≤ 2 ^ 27) }
    ensures rank { IfOk result (λ b. b.rank ≡ rank) }
    ensures shape { IfOk result (λ b. b.shape ≡ shape) }
    ensures fills { IfOk result (λ b. b.state ≡ Filling) }
{
    let mut buffer = Buffer::new(alloc, shape, rank)?;
    for (key, value) in pairs {
        buffer.insert(*key, *value)?;
    }
    Ok(buffer)
}

// The pairs of a buffer, lane by lane.
fn taken(alloc: Global, buffer: Buffer<u64, u64>) -> Result<Vec<(u64, u64)>, NoMemory> {
    let mut pairs = Vec::new(alloc);
    for mut lane in buffer.lanes {
        for _ in 0..lane.left() {
            if let Some(pair) = lane.take() {
                pairs.push((pair.a, pair.b))?;
            }
        }
    }
    Ok(pairs)
}

#[test]
fn pairs_wait_in_the_lane_of_their_home(rt: HostRuntime) -> Result<(), Fail> {
    let buffer = filled(rt.alloc(), SHAPE, 1, &[(3, 30), (2, 20), (6, 60), (3, 30)])?;
    assert!(rt; buffer.is_filling());
    assert_eq!(rt; buffer.left(), 4);
    let pairs = taken(rt.alloc(), buffer)?;
    assert_eq!(rt;
        pairs.as_slice(),
        [(2, 20), (3, 30), (6, 60), (3, 30)].as_slice()
    );
    Ok(())
}

#[test]
fn ranks_get_the_pairs_of_their_keys(rt: HostRuntime) -> Result<(), Fail> {
    let first = filled(rt.alloc(), SHAPE, 0, &[(3, 30), (2, 20), (6, 60)])?;
    let second = filled(rt.alloc(), SHAPE, 1, &[(2, 21), (3, 31), (0, 1)])?;
    let mut buffers = Vec::new(rt.alloc());
    buffers.push(first)?;
    buffers.push(second)?;
    exchange(&mut buffers);
    let Some(second) = buffers.pop() else {
        return Err(Fail::new("no buffer"));
    };
    let Some(first) = buffers.pop() else {
        return Err(Fail::new("one buffer"));
    };
    assert!(rt; !first.is_filling());
    assert_eq!(rt; second.left(), 3);
    let pairs = taken(rt.alloc(), first)?;
    assert_eq!(rt; pairs.as_slice(), [(2, 20), (2, 21), (0, 1)].as_slice());
    let pairs = taken(rt.alloc(), second)?;
    assert_eq!(rt; pairs.as_slice(), [(3, 30), (6, 60), (3, 31)].as_slice());
    Ok(())
}
