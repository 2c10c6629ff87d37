//! A program for bench/map, which times it: pairs are stored in a hash map and their keys are then found, and it prints
//! one number.
//!
//! Its words are a mode, a count of pairs and a number of ranks. A mode is as far as the run goes, in the map of bcl_map
//! or, with `std-` before it, in one thread in the map of std. Three modes insert pairs that have a key each:
//!
//! - `keys`: makes the pairs, deals them to the ranks that own their keys, and makes the map. The number is that of the
//!   pairs.
//! - `insert`: then inserts each key with its place in the list. The number is that of new keys.
//! - `find`: then finds each key, in another order. The number is the sum of the values, modulo 2^64.
//!
//! Three merge pairs of which seven have the same key, in a random order: `pairs`, as `keys`; `merge`, which sums up the
//! values of each key; and `total`, as `find`.
//!
//! In reading order: `job`, `keys`, `insert` and `merge`, `store` and `find`, the two supersteps, and `ranked` and
//! `single`, the two maps.
#![tactic(auto)]

mod find;
mod insert;
mod job;
mod keys;
mod merge;
mod ranked;
mod single;
mod store;

use bcl_words::NoMemory;
use job::{Job, Which};
use keys::Lists;
use std::alloc::Global;
use std::env;
use std::marker::Sync;
use std::process::ExitCode;
use std::rt::Env;
use std::thread::Threads;

/// What the words ask for. `None` where they ask for nothing that can be run.
fn job_of(rt: &(impl Env + AllocGlobal)) -> Option<Job> {
    let mut words = env::args(rt).ok()?.skip(1);
    let mode = words.next()?;
    let count = words.next()?;
    let ranks = words.next()?;
    Job::of_words(&mode, &count, &ranks)
}

fn run<H: Threads + Sync>(rt: &H, alloc: Global, job: &Job) -> Result<u64, NoMemory> {
    let lists = Lists::new(alloc, job.call, job.count)?;
    match job.which {
        Which::Ranked => ranked::run(rt, alloc, job, &lists),
        Which::Std => single::run(alloc, job, &lists),
    }
}

fn main(rt: HostRuntime) -> ExitCode {
    let Some(job) = job_of(&rt) else {
        let _ = eprintln!(rt;
            "usage: map_bench [std-](keys|insert|find|pairs|merge|total) COUNT RANKS"
        );
        return ExitCode::from(2);
    };
    let Ok(number) = run(&rt, rt.alloc(), &job) else {
        let _ = eprintln!(rt; "out of memory");
        return ExitCode::FAILURE;
    };
    match println!(rt; "{number}") {
        Ok(()) => ExitCode::SUCCESS,
        Err(_) => ExitCode::FAILURE,
    }
}
