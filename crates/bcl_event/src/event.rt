//! What a history is made of.

/// A call of a rank, and what it was answered.
#[derive(Clone, Copy, Debug, PartialEq, Eq)]
pub struct Event<C, R> {
    pub rank: u32,
    pub call: C,
    pub reply: R,
}
