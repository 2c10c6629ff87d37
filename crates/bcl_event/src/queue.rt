//! The calls of a queue, and its replies.

/// A call of a queue of items.
#[derive(Clone, Copy, Debug, PartialEq, Eq)]
pub enum QueueCall<T> {
    /// Puts an item at the end.
    Push(T),

    /// Takes the first item.
    Pop,
}

/// What a queue answers. Each item has a ticket: the queue's first ticket and the number of items put before it.
#[derive(Clone, Copy, Debug, PartialEq, Eq)]
pub enum QueueReply {
    /// To `Push`: the ticket of the item, which is put.
    Put(u64),

    /// To `Pop`: the ticket of the item that is taken.
    Took(u64),

    /// To `Push`: as many items as the queue has room for are there, and nothing is changed.
    Full,

    /// To `Pop`: no item is there, and nothing is changed.
    Empty,

    /// To `Push`: no ticket is left, and nothing is changed.
    Worn,
}
