//! The map of bcl_map.

ghost use Rattle.std.specs.Prelude.{◌≡◌, ◌+◌, ◌*◌, ◌≤◌, ◌^◌, IfOk};
ghost use Rattle.bcl_words.specs.Words.{Fits};
ghost use Rattle.bcl_phase.specs.Deals.{AreAll};

use crate::find::{Finder, finders};
use crate::job::{Job, Stage};
use crate::keys::Lists;
use crate::store::{Storer, storers};
use bcl_map::{MapHome, begun, turned};
use bcl_merge::Sum;
use bcl_phase::{Always, passes_of, superstep_all};
use bcl_words::{NoMemory, Object};
use std::alloc::Global;
use std::marker::Sync;
use std::thread::Threads;

/// How many pairs were dealt.
fn dealt<K: Object>(kits: &[Storer<K, u64, Sum>]) -> u64 {
    let mut count = 0u64;
    for kit in kits {
        count = count.wrapping_add(kit.pairs.len() as u64);
    }
    count
}

/// How many keys were new.
fn stored<K: Object>(kits: &[Storer<K, u64, Sum>]) -> u64 {
    let mut count = 0u64;
    for kit in kits {
        count = count.wrapping_add(kit.new);
    }
    count
}

/// The sum of what the finders found.
fn found<K: Object>(kits: &[Finder<K, u64, Sum>]) -> u64 {
    let mut sum = 0u64;
    for kit in kits {
        sum = sum.wrapping_add(kit.sum);
    }
    sum
}

/// Stores pairs, each rank its own, and finds keys, each rank its share of them.
pub fn run<H: Threads + Sync>(
    rt: &H,
    alloc: Global,
    job: &Job,
    lists: &Lists,
) -> Result<u64, NoMemory> {
    let home = MapHome::new(alloc, job.ranks, job.per_rank)?;
    let (lead, passes) = begun(alloc, home)?;
    let mut kits = storers(alloc, &lead, passes, job.call, &lists.stored)?;
    if job.stage == Stage::Dealt {
        return Ok(dealt(&kits));
    }
    superstep_all(rt, &mut kits, &Always);
    if job.stage == Stage::Stored {
        return Ok(stored(&kits));
    }
    let passes = passes_of(alloc, &lead.lead, kits)?;
    let (lead, passes) = turned(alloc, lead, passes)?;
    let mut kits = finders(alloc, &lead, passes, &lists.wanted)?;
    superstep_all(rt, &mut kits, &Always);
    Ok(found(&kits))
}
