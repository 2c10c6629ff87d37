//! The map of std, in one thread.

use crate::job::{Call, Job, Stage};
use crate::keys::Lists;
use bcl_words::NoMemory;
use std::alloc::Global;
use std::collections::HashMap;
use std::collections::hash_map::Entry;

/// Inserts pairs, and answers how many of the keys were new.
fn insert_all(map: &mut HashMap<u64, u64>, pairs: &[(u64, u64)]) -> Result<u64, NoMemory> {
    let mut new = 0u64;
    for pair in pairs {
        if map.insert(pair.0, pair.1)?.is_none() {
            new = new.wrapping_add(1);
        }
    }
    Ok(new)
}

/// Sums up the values of each key, and answers how many of the keys were new.
fn merge_all(map: &mut HashMap<u64, u64>, pairs: &[(u64, u64)]) -> Result<u64, NoMemory> {
    let mut new = 0u64;
    for pair in pairs {
        match map.entry(pair.0)? {
            Entry::Occupied(mut entry) => {
                let sum = entry.get().wrapping_add(pair.1);
                entry.insert(sum);
            }
            Entry::Vacant(entry) => {
                entry.insert(pair.1);
                new = new.wrapping_add(1);
            }
        }
    }
    Ok(new)
}

/// The sum of the values of keys, modulo 2^64.
fn sum_of(map: &HashMap<u64, u64>, wanted: &[(u64, u64)]) -> u64 {
    let mut sum = 0u64;
    for pair in wanted {
        if let Some(value) = map.get(&pair.0) {
            sum = sum.wrapping_add(*value);
        }
    }
    sum
}

/// Stores pairs and finds keys. The map has room for all keys from the start.
pub fn run(alloc: Global, job: &Job, lists: &Lists) -> Result<u64, NoMemory> {
    let mut map = HashMap::with_capacity(alloc, lists.wanted.len())?;
    if job.stage == Stage::Dealt {
        return Ok(lists.stored.len() as u64);
    }
    let new = match job.call {
        Call::Insert => insert_all(&mut map, &lists.stored)?,
        Call::Merge => merge_all(&mut map, &lists.stored)?,
    };
    if job.stage == Stage::Stored {
        return Ok(new);
    }
    Ok(sum_of(&map, &lists.wanted))
}
