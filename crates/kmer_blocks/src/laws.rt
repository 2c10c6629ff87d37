//! What follows from how lines are dealt.

ghost use Rattle.std.specs.Prelude.{◌≡◌, ℕ, ◌+◌, ◌<◌, ◌≤◌, List, length};
ghost use Rattle.std.specs.List.{flat_map, range_with_len};
ghost use Rattle.kmer_blocks.specs.Blocks.{begins_at, block};

/// The blocks of all ranks, one after another, are the lines, and each lies within them. It does nothing, and its contract
/// is what is proved.
pub fn blocks_are_the_lines()
    ensures all { (ranks : ℕ) (lines : List (List ℕ)) → 0 < ranks → flat_map (λ rank. block rank ranks lines) (range_with_len 0 ranks) ≡ lines }
    ensures within { (rank ranks : ℕ) (lines : List (List ℕ)) → rank < ranks → (begins_at rank ranks lines ≤ begins_at (rank + 1) ranks lines) × (begins_at (rank + 1) ranks lines ≤ length lines) }
{}
