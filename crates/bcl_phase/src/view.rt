//! What a seat knows.

use bcl_event::Event;
use std::collections::LinkedList;

/// What a seat is for.
pub enum Role {
    /// The home's own seat. It is the first of the segments.
    Home,
    /// The seat of a pass.
    Pass,
    /// What is left of a pass that came back.
    Spent,
}

/// What a seat knows: C and A are the container's calls and replies, X the calls in flight, K its key.
///
/// No value of it is ever made. Contracts and rules speak of it alone.
pub struct View<C, A, X, K> {
    pub role: Role,
    /// The key of the segments. None where the pass came back.
    pub key: Option<K>,
    /// The rank. The home counts as the rank whose number is the number of ranks.
    pub rank: u32,
    /// The code of the promise under which the phase runs.
    pub promise: u64,
    /// The events that it knows of, in order: a front of the history.
    pub seen: LinkedList<Event<C, A>>,
    /// Its own rank's events.
    pub mine: LinkedList<Event<C, A>>,
    /// How many of its own steps were gets.
    pub gets: u64,
    /// How many of its own steps were puts.
    pub puts: u64,
    /// How many of its own steps were exchanges or fetches.
    pub atomics: u64,
    /// Of a pass: the words that its gets and lost exchanges found, in order. Of each the number and what it was.
    pub found: LinkedList<(u64, u64)>,
    /// The call in flight.
    pub note: X,
    /// Of a home: how many passes are out.
    pub passes: u64,
    /// Of a home: the history as the passes were made.
    pub start: LinkedList<Event<C, A>>,
    /// Of a home: what each pass that came back had seen, and its own events, the last that came first.
    pub back: LinkedList<(LinkedList<Event<C, A>>, LinkedList<Event<C, A>>)>,
    /// Of a home: the words, from a step of its own on until a phase begins.
    pub words: Option<LinkedList<u64>>,
    /// Of a home: that its words are loose, and need not fit. No pass is out then.
    pub loose: bool,
}
