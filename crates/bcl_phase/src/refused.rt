//! Want of memory, where a value is handed back.

use bcl_words::NoMemory;

/// There was no memory. What was to be changed is handed back unchanged.
#[derive(Drop)]
pub struct Refused<T> {
    pub home: T,
}

/// Drops what was handed back.
impl<T: Drop> From<Refused<T>> for NoMemory {
    fn from(_: Refused<T>) -> NoMemory {
        NoMemory
    }
}
