//! Why a run ends without its text, and the status that says so.

ghost use Rattle.std.specs.Prelude.{◌≡◌};
ghost use Rattle.bcl_message.specs.Stop.{status_of, stop_of_read, stop_of_cut, stop_of_letters, stop_of_node, stop_of_walk};
ghost use Rattle.bcl_message.specs.declared.stop.Stop.TheVariants as stops;

use crate::Refusal;
use bcl_io::{Failed, ReadFault};
use bcl_words::NoMemory;
use kmer_paths::WalkFault;
use kmer_text::{CutFault, InputFault, LetterFault};

/// Why a run ends without its text.
#[derive(Clone, Copy, Debug, PartialEq, Eq)]
pub enum Stop {
    /// The input is refused.
    Refused(Refusal),
    /// The words ask for nothing.
    Usage,
    /// The source failed.
    ReadFault,
    /// The sink of the text failed.
    WriteFault,
    /// Memory ran out.
    NoMemory,
}

impl Stop {
    /// The status that says so, from 1 to 5.
    pub fn status(self) -> u8
        ensures { result ≡ status_of self }
    {
        match self {
            Stop::Refused(_) => 1,
            Stop::Usage => 2,
            Stop::ReadFault => 3,
            Stop::WriteFault => 4,
            Stop::NoMemory => 5,
        }
    }
}

impl From<NoMemory> for Stop {
    ghost from_gives = { λ _ stop. stop ≡ stops.NoMemory };

    fn from(_: NoMemory) -> Self {
        Stop::NoMemory
    }
}

impl From<ReadFault> for Stop {
    ghost from_gives = { λ fault stop. stop ≡ stop_of_read fault };

    fn from(fault: ReadFault) -> Self {
        match fault {
            ReadFault::NoMemory => Stop::NoMemory,
            ReadFault::Failed => Stop::ReadFault,
            ReadFault::TooLarge => Stop::Refused(Refusal::TooManyBytes),
        }
    }
}

impl From<CutFault> for Stop {
    ghost from_gives = { λ fault stop. stop ≡ stop_of_cut fault };

    fn from(fault: CutFault) -> Self {
        match fault {
            CutFault::NoMemory => Stop::NoMemory,
            CutFault::TooManyLines => Stop::Refused(Refusal::TooManyLines),
        }
    }
}

impl From<LetterFault> for Stop {
    ghost from_gives = { λ fault stop. stop ≡ stop_of_letters fault };

    fn from(fault: LetterFault) -> Self {
        match fault {
            LetterFault::Bad(line) => Stop::Refused(Refusal::Line(line)),
            LetterFault::TooManyWindows => Stop::Refused(Refusal::TooManyWindows),
        }
    }
}

impl From<InputFault> for Stop {
    ghost from_gives = { λ fault stop. stop ≡ stop_of_node fault };

    fn from(fault: InputFault) -> Self {
        Stop::Refused(Refusal::Line(fault))
    }
}

impl From<WalkFault> for Stop {
    ghost from_gives = { λ fault stop. stop ≡ stop_of_walk fault };

    fn from(fault: WalkFault) -> Self {
        match fault {
            WalkFault::NoMemory => Stop::NoMemory,
            WalkFault::Conflict(line) => Stop::Refused(Refusal::Conflict(line)),
            WalkFault::TooLong => Stop::Refused(Refusal::TooMuchText),
        }
    }
}

impl From<Failed> for Stop {
    ghost from_gives = { λ _ stop. stop ≡ stops.WriteFault };

    fn from(_: Failed) -> Self {
        Stop::WriteFault
    }
}
