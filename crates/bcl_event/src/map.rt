//! The calls of a map, and its replies.

/// A call of a map from keys to values.
#[derive(Clone, Copy, Debug, PartialEq, Eq)]
pub enum MapCall<K, V> {
    /// Asks for the value of a key.
    Find(K),

    /// Stores a value for a key, over one that is there.
    Insert(K, V),

    /// Stores a value for a key; where there is one, both become one by the map's merge law.
    Merge(K, V),

    /// Adds a number to the first word of the value of a key that is there, modulo 2^64.
    Add(K, u64),
}

/// What a map answers.
#[derive(Clone, Copy, Debug, PartialEq, Eq)]
pub enum MapReply<V> {
    /// To `Find`: the key's value.
    Value(V),

    /// To `Find` and `Add`: the key isn't there, and nothing is changed.
    Absent,

    /// To `Insert` and `Merge`: the key wasn't there, and is now.
    New,

    /// To `Insert` and `Merge`: the key was there, and has another value now.
    Replaced,

    /// To `Add`: the first word that the value had.
    Was(u64),

    /// To `Insert` and `Merge`: the key isn't there, as many others as the map has room for are, and nothing is changed.
    Full,
}
