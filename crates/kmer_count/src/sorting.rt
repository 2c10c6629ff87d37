//! How the pairs of a count are sorted.

ghost use Rattle.std.specs.Prelude.{◌≤◌};
ghost use Rattle.std.specs.List.Sorted.{IsPermutation, IsNonDecreasingBy};

use kmer_text::Kmer;
use rayon::prelude::*;
use std::marker::Sync;
use std::thread::Threads;

/// Sorts pairs by their k-mers: for one rank in one thread, for more side by side on all processors, however many the
/// ranks are.
pub(crate) fn sort_by_kmer<H: Threads + Sync>(rt: &H, pairs: &mut [(Kmer, u64)], ranks: u32)
    ensures moved { IsPermutation pairs.old pairs.new }
    ensures rising { IsNonDecreasingBy (λ e. e.0) pairs.new }
{
    if ranks == 1 {
        pairs.sort_unstable_by_key(|pair| pair.0);
    } else {
        par_sort_unstable_by_key(rt, pairs, |pair: &(Kmer, u64)| pair.0);
    }
}
