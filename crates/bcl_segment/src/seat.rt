//! What a thread steps with.

ghost use Rattle.std.specs.Prelude.{◌≡◌, []};

use crate::Rule;

/// A seat of a table that holds no slot.
#[derive(Drop)]
pub(crate) struct Slotless<V> {
    pub(crate) seat: atomic_table::Seat<(), V>,
    ghost slotless: { seat.me.1 ≡ [] },
}

/// A seat at segments under the rule `R`, which a thread steps with. It has no bytes and may go to another thread.
///
/// A contract sees the segments that it is of, its number there, and its view, which is what it knows. Only its own
/// steps change its view, and a join that spends it.
#[derive(Drop)]
pub struct Seat<R: Rule> {
    pub(crate) inner: Slotless<R::View>,
}
