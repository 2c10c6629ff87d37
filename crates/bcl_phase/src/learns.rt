//! What a step of a pass tells its caller.

ghost use Rattle.std.specs.Prelude.{ℕ, List};

use std::marker::Brand;

/// What one step tells its caller, of a container with states T, calls C and notes X. The proof that the step is
/// allowed shows it.
pub trait Learns<T, C, X> {
    /// Of the number found, the state before the step, the calls that the step makes there, and the note after it.
    ///
    /// A put finds nothing, and has the number put. A step at home has the note of no call in flight.
    ghost then: { ℕ → T → List C → X → Type 0 };
}

/// A step at `Brand` tells nothing, unless the proof of the caller picks what it tells.
impl<T, C, X> Learns<T, C, X> for Brand {
    ghost then = { λ _ _ _ _. Unit {0} };
}
