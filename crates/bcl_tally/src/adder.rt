//! A rank's part in a superstep.

ghost use Rattle.std.specs.Prelude.{◌≡◌, ℕ, ◌<◌, [], ◌∷◌};
ghost use Rattle.bcl_event.specs.History.{event};
ghost use Rattle.bcl_phase.specs.Parts.{lead_key};
ghost use Rattle.bcl_tally.specs.declared.tally.Call.TheVariants.{Add};
ghost use Rattle.bcl_tally.specs.declared.tally.Reply.TheVariants.{Was};
ghost use Rattle.bcl_tally.specs.Calls.{Ran};
ghost use Rattle.bcl_tally.specs.Parts.{pass_view, IsOf};

use crate::pass::TallyPass;
use crate::tally::Tally;
use bcl_phase::{Any, Kit, Lead};

/// Adds to the number of rank 0 and then to its own.
#[derive(Drop)]
pub struct Adder<'a> {
    pub lead: &'a Lead<Tally>,
    pub pass: TallyPass<Any>,
    pub n: u64,
}

impl<'a> Kit for Adder<'a> {
    ghost ready = { λ k. (0 < lead_key k.lead.now) × IsOf k.pass k.lead.now };

    ghost step = { λ k l. (l.lead ≡ k.lead) × IsOf l.pass l.lead.now
        × ((a b : ℕ) × Ran (lead_key k.lead.now) (pass_view k.pass) (pass_view l.pass) (event (pass_view k.pass).rank (Add 0 k.n) (Was a) ∷ event (pass_view k.pass).rank (Add (pass_view k.pass).rank k.n) (Was b) ∷ [])) };

    fn rank(&self) -> u32 {
        self.pass.rank()
    }

    fn part(&mut self) {
        let own = self.pass.rank();
        self.pass.add(self.lead, 0, self.n);
        self.pass.add(self.lead, own, self.n);
    }
}
