//! What a pass knows of a map between two of its steps.

use std::collections::LinkedList;

/// A list of words, as events name a key and a value.
pub type Words = LinkedList<u64>;

/// How a place shows that a rank writes it.
pub enum Lock {
    /// Not at all.
    Shown,
    /// It is reserved for a new key.
    Reserved,
    /// It is held for a new value.
    Held,
}

/// The value that a place had before it is written.
pub enum Before {
    /// There was none: the key is new.
    Nothing,
    Value(Words),
}

/// One thing that a pass knows. It stands by itself: a new stage of a call is a new list of claims.
pub enum Claim {
    /// So many places at the front of the key's path are in use by other keys.
    Passed(Words, u64),
    /// The place with this number on the key's path is in use by the key.
    Keyed(Words, u64),
    /// That place is in use by a key of the same home, whose first words are those of this key.
    Alike(Words, u64, u64),
    /// That place is in use and not reserved: its key is whole where ranks insert any key.
    Settled(Words, u64),
    /// The value of a key, which no other rank changes.
    Certain(Words, Words),
    /// A key has no place, and no other rank gives it one.
    Lacking(Words),
    /// The place has a reader of this rank, and its key and value stay.
    Lent(u64, Words, Words),
    /// The rank writes the place: how it shows, the key, the value before, the value in the state, and how many words are
    /// put.
    Grips(u64, Lock, Words, Before, Words, u64),
    /// The state has so many keys at least.
    Many(u64),
    /// It has one more, if the place is in use.
    Met(u64, u64),
}

/// What a pass knows.
pub struct Note {
    /// What the tries of this pass have found: a place, and the word found there.
    pub looked: LinkedList<(u64, u64)>,
    pub claims: LinkedList<Claim>,
}
