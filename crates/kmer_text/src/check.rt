//! Whether lines have letters alone, and how many windows they have.

ghost use Rattle.std.specs.Prelude.{◌≡◌, ℕ, ◌+◌, ◌-◌, ◌^◌, ◌<◌, ◌≤◌, ◌↔◌, true, length, IsTrue, OnOk, IfOk, All, None, Some, IsErrOf, min};
ghost use Rattle.kmer_text.specs.Letters.{is_letter, are_letters, bad_letter};
ghost use Rattle.kmer_text.specs.Windows.{windows, total};
ghost use Rattle.kmer_text.specs.Kmers.{IsKmerLength};
ghost use Rattle.kmer_text.specs.declared.fault.InputFault.{InputFault as AnyFault};

use crate::{InputFault, Kind, Lines};

/// The most windows of an input.
pub const MAX_WINDOWS: u64 = 1 << 23;

/// Why lines can't be counted.
#[derive(Clone, Copy, Debug, PartialEq, Eq, Hash)]
pub enum LetterFault {
    /// The first line that has a byte other than `ACGT`.
    Bad(InputFault),
    TooManyWindows,
}

pub(crate) fn is_letter(byte: u8) -> bool
    ensures { result ≡ is_letter byte }
{
    (byte == b'A') | (byte == b'C') | (byte == b'G') | (byte == b'T')
}

// It goes on behind a byte that is none, so that no branch hangs on a byte, and several are asked at once.
pub(crate) fn are_letters(line: &[u8]) -> bool
    ensures { result ≡ are_letters line.now }
{
    let mut all = true;
    for byte in line {
        all &= is_letter(*byte);
    }
    all
}

/// How many windows of `k` letters a line has.
fn count_of(line: &[u8], k: u32) -> usize
    requires { 1 ≤ k }
    ensures { result ≡ length (windows k line.now) }
{
    (line.len() + 1).saturating_sub(k as usize)
}

/// How many windows of `k` letters the lines have, where every line has letters alone.
pub fn check_letters(lines: &Lines, k: u32) -> Result<u64, LetterFault>
    requires k { IsKmerLength k }

    ensures count { IfOk result (λ n. n ≡ total k lines.now) }
    ensures few { IfOk result (λ n. n ≤ 2 ^ 23) }
    ensures letters { OnOk result (All (λ line. IsTrue (are_letters line)) lines.now) }
    ensures bad { (fault : AnyFault) → IsErrOf result (LetterFault.Bad fault) ↔ (bad_letter lines.now ≡ Some fault) }
    ensures too_many { IsErrOf result LetterFault.TooManyWindows ↔ ((bad_letter lines.now ≡ None) × (2 ^ 23 < total k lines.now)) }
{
    let mut total = 0u64;
    for i in 0..lines.count() {
        let line = lines.line(i);
        if !are_letters(line) {
            return Err(LetterFault::Bad(InputFault {
                line: i as u64 + 1,
                kind: Kind::Letter,
            }));
        }
        total = total.saturating_add(count_of(line, k) as u64);
    }
    if total > MAX_WINDOWS {
        return Err(LetterFault::TooManyWindows);
    }
    Ok(total)
}
