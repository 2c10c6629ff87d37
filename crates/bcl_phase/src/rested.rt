//! A pass between two calls.

ghost use Rattle.std.specs.Prelude.{◌≡◌, true};
ghost use Rattle.bcl_phase.specs.Parts.{pass_view};

use crate::{Pass, Phased, Promise};

/// A pass that has no call in flight: it is what a phase hands out, and what it takes back.
#[derive(Drop)]
pub struct Rested<R: Phased, P: Promise> {
    pub pass: Pass<R, P>,
    pub ghost idle: { R.idle P.CODE (pass_view pass).note ≡ true },
}
