//! The keys, and the pairs that have them.

use crate::job::{Call, PAIRS_OF_KEY};
use rand_core::{Rng, SeedableRng};
use rand_xoshiro::SplitMix64;
use std::alloc::{AllocError, Global};

/// What they are made from. bench/map.cpp has the same.
const SEED: u64 = 1;

/// The pairs of a run, each a key and a value.
#[derive(Drop)]
pub struct Lists {
    /// Those that are stored, in this order.
    pub stored: Vec<(u64, u64)>,
    /// One of each key, in the order in which the keys are found.
    pub wanted: Vec<(u64, u64)>,
}

impl Lists {
    /// So many pairs to be stored by a call, the same in each run.
    pub fn new(alloc: Global, call: Call, count: u32) -> Result<Lists, AllocError> {
        match call {
            Call::Insert => {
                let stored = random(alloc, count)?;
                let wanted = shuffled(alloc, &stored)?;
                Ok(Lists { stored, wanted })
            }
            Call::Merge => {
                let wanted = random(alloc, call.keys_of(count))?;
                let stored = repeated(alloc, count)?;
                let stored = shuffled(alloc, &stored)?;
                Ok(Lists { stored, wanted })
            }
        }
    }
}

/// So many random keys, the same in each run, each with its place in the list.
fn random(alloc: Global, count: u32) -> Result<Vec<(u64, u64)>, AllocError> {
    let mut words = SplitMix64::seed_from_u64(SEED);
    let mut pairs = Vec::with_capacity(alloc, count as usize)?;
    for place in 0..count {
        pairs.push((words.next_u64(), u64::from(place)))?;
    }
    Ok(pairs)
}

/// So many pairs of the same keys, some of each side by side, each with its place in the list.
fn repeated(alloc: Global, count: u32) -> Result<Vec<(u64, u64)>, AllocError> {
    let mut words = SplitMix64::seed_from_u64(SEED);
    let mut key = 0;
    let mut pairs = Vec::with_capacity(alloc, count as usize)?;
    for place in 0..count {
        if place % PAIRS_OF_KEY == 0 {
            key = words.next_u64();
        }
        pairs.push((key, u64::from(place)))?;
    }
    Ok(pairs)
}

/// The pairs in a random order, the same in each run. bench/map.cpp has the same.
fn shuffled(alloc: Global, pairs: &[(u64, u64)]) -> Result<Vec<(u64, u64)>, AllocError> {
    let mut words = SplitMix64::seed_from_u64(SEED + 1);
    let mut list = pairs.to_vec(alloc)?;
    for place in 1..pairs.len() {
        let other = words.next_u64() % (place as u64 + 1);
        list.swap(place, other as usize);
    }
    Ok(list)
}
