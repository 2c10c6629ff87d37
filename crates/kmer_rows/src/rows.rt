//! The rows of a list of counts.

ghost use Rattle.std.specs.Prelude.{◌≡◌, ◌^◌, ◌<◌, ◌++◌, OnOk, All};
ghost use Rattle.kmer_text.specs.Kmers.{IsKmerLength, word_of};
ghost use Rattle.kmer_rows.specs.Count.{row};
ghost use Rattle.kmer_rows.specs.Counts.{rows};

use bcl_words::NoMemory;
use itoa::Buffer;
use kmer_text::{Kmer, MAX_K};

/// Adds a row at the end.
fn push_row(text: &mut Vec<u8>, kmer: Kmer, n: u64, k: u32) -> Result<(), NoMemory>
    requires k { IsKmerLength k }
    requires value { kmer < 4 ^ k }
    ensures { OnOk result (text.new.items ≡ text.old.items ++ row (word_of k kmer) n) }
{
    let mut letters = [0u8; MAX_K as usize];
    let word = &mut letters[..k as usize];
    kmer.letters(k, word);
    text.extend_from_slice(word)?;
    text.push(b'\t')?;
    text.extend_from_slice(Buffer::new().format(n).as_bytes())?;
    text.push(b'\n')?;
    Ok(())
}

/// Adds a row at the end for each k-mer of the list that is counted at least `least` times, in the order of the list.
pub fn push_rows(
    text: &mut Vec<u8>,
    counts: &[(Kmer, u64)],
    k: u32,
    least: u64,
) -> Result<(), NoMemory>
    requires k { IsKmerLength k }
    requires values { All (λ entry. entry.0 < 4 ^ k) counts.now }
    ensures { OnOk result (text.new.items ≡ text.old.items ++ rows k least counts.now) }
{
    for (kmer, n) in counts {
        if *n >= least {
            push_row(text, *kmer, *n, k)?;
        }
    }
    Ok(())
}
