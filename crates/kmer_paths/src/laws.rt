//! What the definitions of walks and contigs mean, in other words than their own.

ghost use Rattle.std.specs.Prelude.{ℕ, ◌<◌, ◌≤◌, List, length};
ghost use Rattle.std.specs.List.Sorted.{IsPermutation, IsSorted};
ghost use Rattle.std.specs.Cmp.Lexicographic.{slice_cmp};
ghost use Rattle.std.specs.Ordering.{nat_cmp};
ghost use Rattle.kmer_paths.specs.Walks.{GoesFrom, walk};
ghost use Rattle.kmer_paths.specs.Contigs.{in_byte_order};

/// A walk begins at its line, goes on from line to next line and repeats none, and no other list of lines that does is
/// longer.
pub fn walks_are_longest()
    ensures goes { (k place : ℕ) (lines : List (List ℕ)) → place < length lines → GoesFrom k lines place (walk k lines place) }
    ensures longest { (k place : ℕ) (lines : List (List ℕ)) (other : List ℕ) → place < length lines → GoesFrom k lines place other → length other ≤ length (walk k lines place) }
{}

/// Texts in byte order are the same texts, and none is before the one that it follows.
pub fn texts_are_ordered()
    ensures same { (texts : List (List ℕ)) → IsPermutation texts (in_byte_order texts) }
    ensures order { (texts : List (List ℕ)) → IsSorted (slice_cmp nat_cmp) (in_byte_order texts) }
{}
