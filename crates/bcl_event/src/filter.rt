//! The calls of a filter, and its replies.

/// A call of a Bloom filter of keys.
#[derive(Clone, Copy, Debug, PartialEq, Eq)]
pub enum FilterCall<K> {
    /// Puts a key into the filter.
    Insert(K),

    /// Asks whether a key may be in the filter.
    Find(K),
}

/// What a filter answers to either call. A key that was inserted is present; one that wasn't may be.
#[derive(Clone, Copy, Debug, PartialEq, Eq)]
pub enum FilterReply {
    /// Each mark of the key is a mark of some key that was inserted before.
    Present,

    /// Some mark of the key is no mark of any key that was inserted before.
    NotPresent,
}
