//! The calls of an array, and its replies.

/// A call of an array of items. A place is the index of an item.
#[derive(Clone, Copy, Debug, PartialEq, Eq)]
pub enum ArrayCall<T> {
    /// Asks for the item at a place.
    Read(u32),

    /// Stores an item at a place.
    Write(u32, T),

    /// Adds a number to the first word of the item at a place, modulo 2^64.
    FetchAdd(u32, u64),

    /// Makes a number the first word of the item at a place, where it is less.
    FetchMin(u32, u64),
}

/// What an array answers.
#[derive(Clone, Copy, Debug, PartialEq, Eq)]
pub enum ArrayReply<T> {
    /// To `Read`: the item.
    Value(T),

    /// To `Write`: the item is stored.
    Done,

    /// To `FetchAdd` and `FetchMin`: the first word that the item had.
    Was(u64),
}
