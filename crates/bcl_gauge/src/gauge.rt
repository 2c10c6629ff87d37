//! What the gauge is: its sequential object, and what its word means.

ghost use Rattle.bcl_phase.specs.Views.{opened};
ghost use Rattle.bcl_phase.specs.Rule.{Kept};
ghost use Rattle.bcl_gauge.specs.Gauge.{ranks, start, next, permits, fits};

use atomic_table::TableRule;
use bcl_phase::{Any, Grants, Phased, View};
use bcl_segment::Rule;

/// What is fixed when a gauge is made.
#[derive(Clone, Copy, Debug, PartialEq, Eq)]
pub struct Shape {
    pub ranks: u32,
    pub floor: u64,
}

/// A call on the number.
#[derive(Clone, Copy, Debug, PartialEq, Eq)]
pub enum Call {
    /// Lowers it to this, or to the floor if that is above.
    Lower(u64),
}

/// A number with a floor.
pub struct Gauge;

impl TableRule<(), View<Call, (), (), Shape>, Shape> for Gauge {
    ghost holds = { Kept ranks start next permits fits };

    ghost first = { λ k. opened k (ranks k) tt };
}

impl Rule for Gauge {
    type View = View<Call, (), (), Shape>;

    type Key = Shape;
}

impl Phased for Gauge {
    ghost use Rattle.std.specs.Prelude.{true, refl};
    ghost use Rattle.bcl_gauge.specs.Gauge.{begun};

    type Call = Call;

    type Reply = ();

    type State = u64;

    type Note = ();

    ghost ranks = { ranks };

    ghost heads = { λ _. 1 };

    ghost layout = { λ k. record { ranks = k.ranks; per_rank = 0 } };

    ghost sound = { λ _. true };

    ghost start = { start };

    ghost next = { next };

    ghost permits = { permits };

    ghost rest = { tt };

    ghost idle = { λ _ _. true };

    ghost rests = { λ _. refl };

    ghost fits = { fits };

    ghost admits = { λ k p ws t xs few fit. fit };

    ghost releases = { λ k p ws t xs y idle fit. fit };

    ghost begins = { begun };

    ghost from = { λ k s kept. kept };

    ghost back = { λ k s kept. kept };

    ghost opens = { λ k. refl };
}

impl Grants<Any> for Gauge {}
