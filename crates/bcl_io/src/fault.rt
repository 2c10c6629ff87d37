//! Why bytes could not be read or written.

ghost use Rattle.std.specs.Prelude.{◌≡◌};
ghost use Rattle.bcl_io.specs.declared.fault.ReadFault.TheVariants as faults;

use std::alloc::AllocError;
use thiserror::Error;

/// A device failed.
#[derive(Clone, Copy, Debug, PartialEq, Eq, Hash, Error)]
#[error("device failed")]
pub struct Failed;

/// Why a source was not read to its end.
#[derive(Clone, Copy, Debug, PartialEq, Eq, Hash, Error)]
pub enum ReadFault {
    #[error("out of memory")]
    NoMemory,
    #[error("read fault")]
    Failed,
    #[error("too large")]
    TooLarge,
}

impl From<Failed> for ReadFault {
    ghost from_gives = { λ _ e. e ≡ faults.Failed };

    fn from(_: Failed) -> Self {
        ReadFault::Failed
    }
}

impl From<AllocError> for ReadFault {
    ghost from_gives = { λ _ e. e ≡ faults.NoMemory };

    fn from(_: AllocError) -> Self {
        ReadFault::NoMemory
    }
}
