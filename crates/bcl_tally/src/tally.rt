//! What the tally is: its sequential object, and what its words mean.

ghost use Rattle.bcl_phase.specs.Views.{opened};
ghost use Rattle.bcl_phase.specs.Rule.{Kept};
ghost use Rattle.bcl_tally.specs.Tally.{ranks, start, next, permits, is_rest, fits};

use atomic_table::TableRule;
use bcl_phase::{Any, Grants, Own, Phased, Settles, View};
use bcl_segment::Rule;
use std::collections::LinkedList;

/// A call on the number of a rank.
#[derive(Clone, Copy, Debug, PartialEq, Eq)]
pub enum Call {
    /// Adds to it. The sum wraps.
    Add { place: u32, n: u64 },
    /// Exchanges it for another.
    Swap { place: u32, n: u64 },
}

/// What a call is answered: the number as it was.
pub enum Reply {
    Was(u64),
}

/// A call in flight.
pub enum Note {
    /// There is none.
    Rest,
    /// An exchange that has got the old number.
    Got(u64),
}

/// A number for each rank. Its key is how many ranks there are.
pub struct Tally;

impl TableRule<(), View<Call, Reply, Note, u32>, u32> for Tally {
    ghost use Rattle.bcl_tally.specs.declared.tally.Note.TheVariants.{Rest};

    ghost holds = { Kept ranks start next permits fits };

    ghost first = { λ k. opened k (ranks k) Rest };
}

impl Rule for Tally {
    type View = View<Call, Reply, Note, u32>;

    type Key = u32;
}

impl Phased for Tally {
    ghost use Rattle.std.specs.Prelude.{true, refl};
    ghost use Rattle.bcl_tally.specs.Ranks.{admitted, released, renewed};
    ghost use Rattle.bcl_tally.specs.declared.tally.Note.TheVariants.{Rest};

    type Call = Call;

    type Reply = Reply;

    type State = LinkedList<u64>;

    type Note = Note;

    ghost ranks = { ranks };

    ghost heads = { λ _. 0 };

    ghost layout = { λ k. record { ranks = k; per_rank = 1 } };

    ghost sound = { λ _. true };

    ghost start = { start };

    ghost next = { next };

    ghost permits = { permits };

    ghost rest = { Rest };

    ghost idle = { λ _. is_rest };

    ghost rests = { λ _. refl };

    ghost fits = { fits };

    ghost admits = { admitted };

    ghost releases = { released };

    ghost begins = { λ k. renewed k 0 };

    ghost from = { λ k s kept. kept };

    ghost back = { λ k s kept. kept };

    ghost opens = { λ k. refl };
}

impl Settles for Tally {
    ghost use Rattle.bcl_tally.specs.Ranks.{renewed};

    ghost settles = { λ k p. renewed k p 0 };
}

impl Grants<Any> for Tally {}

impl Grants<Own> for Tally {}
