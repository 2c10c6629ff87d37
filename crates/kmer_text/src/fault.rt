//! What is wrong with a line.

/// The first fault of a line.
#[derive(Clone, Copy, Debug, PartialEq, Eq, Hash)]
pub enum Kind {
    /// A byte stands where a letter has to, and isn't one of `ACGT`.
    Letter,
    /// The line hasn't as many bytes as it has to.
    Length,
    /// No tab stands behind the key.
    Tab,
    /// A byte stands where an extension has to, and isn't one of `ACGTF`.
    Extension,
}

/// A bad line, by its number from 1, and its first fault.
#[derive(Clone, Copy, Debug, PartialEq, Eq, Hash)]
pub struct InputFault {
    pub line: u64,
    pub kind: Kind,
}
