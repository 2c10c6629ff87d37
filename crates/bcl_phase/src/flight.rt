//! A call in flight on an object of several words.

use std::collections::LinkedList;

/// An object whose words a call gets or puts, one at a time and in their order. The notes of a container have it.
///
/// No value of it is ever made.
pub struct Flight {
    /// Where the object stands, as the container counts.
    pub place: u64,
    /// Its words.
    pub object: LinkedList<u64>,
    /// How many of them were got or put.
    pub count: u64,
}
