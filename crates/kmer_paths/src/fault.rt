//! Why lines of nodes have no contigs.

ghost use Rattle.std.specs.Prelude.{◌≡◌};
ghost use Rattle.kmer_paths.specs.declared.fault.WalkFault.TheVariants as faults;

use bcl_words::NoMemory;
use std::alloc::{AllocError, AllocFailed};

/// Why lines of nodes have no contigs.
#[derive(Clone, Copy, Debug, PartialEq, Eq, Hash)]
pub enum WalkFault {
    NoMemory,
    /// The number, from 1, of the first line whose extensions differ from those of the first line of its key.
    Conflict(u64),
    /// The contigs, with a newline behind each, have more than 2^26 bytes.
    TooLong,
}

impl From<NoMemory> for WalkFault {
    ghost from_gives = { λ _ e. e ≡ faults.NoMemory };

    fn from(_: NoMemory) -> Self {
        WalkFault::NoMemory
    }
}

impl From<AllocError> for WalkFault {
    ghost from_gives = { λ _ e. e ≡ faults.NoMemory };

    fn from(_: AllocError) -> Self {
        WalkFault::NoMemory
    }
}

impl<T: Drop> From<AllocFailed<T>> for WalkFault {
    ghost from_gives = { λ _ e. e ≡ faults.NoMemory };

    fn from(_: AllocFailed<T>) -> Self {
        WalkFault::NoMemory
    }
}
