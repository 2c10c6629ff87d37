//! What an insertion and a merge are answered.

/// How a value was stored for a key.
#[derive(Clone, Copy, Debug, PartialEq, Eq)]
pub enum Inserted {
    /// The key is new.
    New,
    /// The key was there, and has the new value, or what a merge made of both.
    Replaced,
    /// The key isn't there, and each bucket is in use by another one.
    Full,
}
