//! That the words of K letters, as the definitions list them, are all of them in byte order.

ghost use Rattle.std.specs.Prelude.{◌≡◌, ℕ, List, length, true, All, Contains, IsTrue};
ghost use Rattle.std.specs.List.Sorted.{IsStrictlySortedBy};
ghost use Rattle.std.specs.Cmp.Lexicographic.{slice_cmp};
ghost use Rattle.std.specs.Ordering.{nat_cmp};
ghost use Rattle.kmer_text.specs.Letters.{are_letters};
ghost use Rattle.kmer_text.specs.Kmers.{all_words};

/// A text over `all_words` is in byte order, names no word twice and leaves none out.
pub fn words_rise()
    ensures order { (k : ℕ) → IsStrictlySortedBy (slice_cmp nat_cmp) (all_words k) }
    ensures only { (k : ℕ) → All (λ word. (length word ≡ k) × IsTrue (are_letters word)) (all_words k) }
    ensures all { (word : List ℕ) → IsTrue (are_letters word) → Contains (all_words (length word)) word }
{}
