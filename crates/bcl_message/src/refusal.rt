//! Why an input is refused.

use kmer_text::InputFault;

/// Why an input is refused, in the order in which the reasons are tried.
#[derive(Clone, Copy, Debug, PartialEq, Eq, Hash)]
pub enum Refusal {
    /// There are more than 2^26 bytes.
    TooManyBytes,
    /// There are more than 2^22 lines, empty ones counted.
    TooManyLines,
    /// The first bad line.
    Line(InputFault),
    /// There are more than 2^23 windows.
    TooManyWindows,
    /// The number, from 1, of the first line whose extensions differ from those of the first line of its key.
    Conflict(u64),
    /// The contigs have more than 2^26 bytes, newlines counted.
    TooMuchText,
}
