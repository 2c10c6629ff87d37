//! A seat that is put by, so that threads can share what holds it.
ghost use Rattle.std.specs.Prelude.{◌≡◌};
ghost use base.Fml.{ftrue};

use atomic_table::Seat;
use std::marker::Model;

/// A seat that a `&` shows nothing of. Steps need the seat itself, so threads may share this.
pub(crate) struct Still<S, V> {
    pub(crate) seat: Seat<S, V>,
}

impl<S, V> Model for Still<S, V> {
    ghost also_owns = { λ _. ftrue };
}

impl<S, V> Still<S, V> {
    pub(crate) fn new(seat: Seat<S, V>) -> Still<S, V>
        ensures { result.seat ≡ seat }
    {
        Still { seat }
    }

    pub(crate) fn into_seat(self) -> Seat<S, V>
        ensures { result ≡ self.seat }
    {
        let Still { seat } = self;
        seat
    }
}

impl<S, V> Drop for Still<S, V> {
    fn drop(self) {
        drop(self.into_seat());
    }
}

unsafe impl<S: Send, V> Send for Still<S, V> {}

unsafe impl<S: Send, V> Sync for Still<S, V> {}
