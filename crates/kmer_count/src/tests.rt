//! Worked examples of counts.

ghost use Rattle.std.specs.Prelude.{◌≤◌};
ghost use Rattle.kmer_text.specs.Kmers.{IsKmerLength};

use crate::{CountPlan, count};
use bcl_phase::Always;
use kmer_text::{Kmer, Lines, check_letters};
use std::alloc::Global;
use std::marker::Sync;
use std::test::Fail;
use std::thread::Threads;

/// The k-mers of a text by their numbers, with their counts, as a count over ranks answers them, and how many pairs its map
/// has.
fn counted_over<H: Threads + Sync>(
    rt: &H,
    alloc: Global,
    text: &[u8],
    k: u32,
    ranks: u32,
) -> Result<(Vec<(Kmer, u64)>, usize), Fail>
    requires k { IsKmerLength k }
    requires ranks { (1 ≤ ranks) × (ranks ≤ 64) }
{
    let lines = Lines::cut(alloc, text.to_vec(alloc)?)?;
    let windows = check_letters(&lines, k)?;
    let plan = CountPlan {
        k,
        ranks,
        min: 1,
        windows,
    };
    let counted = count(rt, alloc, &lines, &plan, &Always)?;
    let pairs = counted.closed.entries().len();
    Ok((counted.sorted, pairs))
}

#[test]
fn ranks_count_what_one_counts(rt: HostRuntime) -> Result<(), Fail> {
    let sample = b"ACGT\nCGTA\n";
    // ACG, CGT and GTA, as numbers to the base 4.
    let all = [
        (Kmer { bits: 6 }, 1),
        (Kmer { bits: 27 }, 2),
        (Kmer { bits: 44 }, 1),
    ];
    // With three ranks there are fewer lines than ranks.
    for ranks in 1..4 {
        let (sorted, pairs) = counted_over(&rt, rt.alloc(), sample, 3, ranks)?;
        assert_eq!(rt; sorted.as_slice(), all.as_slice());
        assert_eq!(rt; pairs, 3);
    }
    Ok(())
}

#[test]
fn ranks_without_windows_count_none(rt: HostRuntime) -> Result<(), Fail> {
    let (sorted, pairs) = counted_over(&rt, rt.alloc(), b"\n\n\n", 3, 2)?;
    assert!(rt; sorted.is_empty());
    assert_eq!(rt; pairs, 0);
    let (sorted, pairs) = counted_over(&rt, rt.alloc(), b"", 3, 64)?;
    assert!(rt; sorted.is_empty());
    assert_eq!(rt; pairs, 0);
    Ok(())
}

/// No two windows of the line are the same, so as many keys are put as there can be.
#[test]
fn each_kmer_finds_a_bucket(rt: HostRuntime) -> Result<(), Fail> {
    // Each pair of letters stands in it once.
    let line = b"AACAGATCCGCTGGTTA";
    for ranks in 1..5 {
        let (sorted, pairs) = counted_over(&rt, rt.alloc(), line, 2, ranks)?;
        assert_eq!(rt; sorted.len(), 16);
        assert_eq!(rt; pairs, 16);
        for (kmer, n) in &sorted {
            assert!(rt; kmer.bits < 16);
            assert_eq!(rt; *n, 1);
        }
    }
    Ok(())
}
