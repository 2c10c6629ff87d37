//! That the rows of the counts are the text of the count.

ghost use Rattle.std.specs.Prelude.{◌≡◌, ℕ, ◌≤◌, List, All, IsTrue};
ghost use Rattle.kmer_text.specs.Kmers.{IsKmerLength};
ghost use Rattle.kmer_text.specs.Letters.{are_letters};
ghost use Rattle.kmer_rows.specs.Count.{count_text};
ghost use Rattle.kmer_rows.specs.Counts.{AreCounts, rows};

/// The rows of the counts of lines of letters are what a count of the lines prints, where the minimum is at least 1.
pub fn rows_are_the_text()
    ensures { (k least : ℕ) (lines : List (List ℕ)) (entries : List (ℕ × ℕ)) → IsKmerLength k → 1 ≤ least
        → All (λ line. IsTrue (are_letters line)) lines → AreCounts k lines entries → rows k least entries ≡ count_text k least lines }
{}
