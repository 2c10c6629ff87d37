//! What is fixed when a map is made.

/// How many ranks there are, how many buckets each has, and how many words of its own a key has.
#[derive(Clone, Copy, Debug, PartialEq, Eq)]
pub struct Shape {
    pub ranks: u32,
    pub per_rank: u32,
    pub width: u32,
}
