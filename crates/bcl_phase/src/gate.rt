//! What each rank passes before its part.

/// A gate that each rank passes as it enters a superstep. Its caller sees by it which ranks came, and when.
///
/// Condition of every gate: `enter` returns.
pub trait Gate: Sync {
    fn enter(&self, rank: u32);
}

/// The gate that does nothing.
#[derive(Clone, Copy, Debug)]
pub struct Always;

impl Gate for Always {
    fn enter(&self, _rank: u32) {}
}
