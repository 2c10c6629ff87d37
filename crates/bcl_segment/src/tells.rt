//! What a step tells its caller.

ghost use Rattle.std.specs.Prelude.{◌≡◌, ℕ, []};

use atomic_table::Play;
use std::marker::{Brand, PhantomData};

/// What one step tells its caller of the words and the views. The step's proof shows that the rule gives it.
pub trait Tells<V> {
    /// Of the number of the word, the step's two operands, the view before, the number found and the view after.
    ///
    /// A get has the operands 0 and 0, a compare and exchange the old and the new number, and each other step the
    /// number that it is given and 0. A put finds nothing, and here has the number put.
    ghost then: { ℕ → ℕ → ℕ → V → ℕ → V → Type 0 };
}

/// A step at `Brand` tells nothing, unless the proof of the caller picks what it tells.
impl<V> Tells<V> for Brand {
    ghost then = { λ _ _ _ _ _ _. Unit {0} };
}

/// The same in the table's words. The seat holds no slot afterwards.
pub(crate) struct Told<M> {
    of: PhantomData<M>,
}

impl<V, M: Tells<V>> Play<(), V> for Told<M> {
    ghost then = { λ step before found after. M.then step.word step.first step.second before.0 found after.0 × (after.1 ≡ []) };
}
