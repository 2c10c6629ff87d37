//! One rank's part in a phase of a tally, and its calls.

ghost use Rattle.std.specs.Prelude.{◌≡◌, ◌+◌, ◌<◌};
ghost use Rattle.bcl_phase.specs.Parts.{lead_key, lead_word, HasSpot};
ghost use Rattle.bcl_tally.specs.declared.tally.Reply.TheVariants.{Was};
ghost use Rattle.bcl_tally.specs.Calls.{Goes};

use crate::tally::{Call, Tally};
use bcl_phase::{Any, Lead, Own, Promise, Rested, Wraps};
use bcl_segment::{GlobalPtr, Layout, Spot};
use std::marker::Brand;

/// One rank's part in a phase of a tally under the promise P. It may go to another thread.
#[derive(Drop)]
pub struct TallyPass<P: Promise> {
    pub(crate) pass: Rested<Tally, P>,
}

impl<P: Promise> Wraps for TallyPass<P> {
    type Inner = Rested<Tally, P>;

    ghost inner = { λ pass. pass.pass };

    fn wrap(it: Rested<Tally, P>) -> Self {
        TallyPass { pass: it }
    }

    fn into_inner(self) -> Rested<Tally, P> {
        self.pass
    }
}

// Where the number of a rank stands.
pub(crate) fn number_of(lead: &Lead<Tally>, rank: u32) -> Spot
    requires below { rank < lead_key lead.now }
    ensures spot { HasSpot lead.now result }
    ensures word { lead_word lead.now result ≡ rank }
{
    Spot::At(GlobalPtr { rank, offset: 0 })
}

impl<P: Promise> TallyPass<P> {
    ghost use Rattle.bcl_tally.specs.Parts.{pass_view};

    /// The number of this rank, from 0.
    pub fn rank(&self) -> u32
        ensures rank { result ≡ (pass_view self.now).rank }
    {
        self.pass.pass.rank()
    }

    /// How many ranks there are, each with one word.
    pub fn layout(&self) -> Layout {
        self.pass.pass.layout()
    }
}

impl TallyPass<Any> {
    ghost use Rattle.bcl_tally.specs.declared.tally.Call.TheVariants.{Add};
    ghost use Rattle.bcl_tally.specs.Parts.{pass_view, IsOf, Stands};

    /// Adds to the number of a rank, and answers what it was. One fetch_add.
    pub fn add(&mut self, lead: &Lead<Tally>, place: u32, n: u64) -> u64
        requires of { IsOf self.old lead.now }
        requires place { place < lead_key lead.now }
        ensures stands { Stands lead.now self.old self.new (Add place n) (Was result) }
        ensures of { IsOf self.new lead.now }
        ensures cost { (pass_view self.new).atomics ≡ (pass_view self.old).atomics + 1 }
    {
        self.pass
            .pass
            .fetch_add::<Brand, Call>(lead, number_of(lead, place), n, &Call::Add { place, n })
    }

    /// Adds to the number of a rank, so many times.
    pub fn add_often(&mut self, lead: &Lead<Tally>, place: u32, n: u64, times: u32)
        requires of { IsOf self.old lead.now }
        requires place { place < lead_key lead.now }
        ensures goes { Goes (lead_key lead.now) (pass_view self.old) (pass_view self.new) }
        ensures of { IsOf self.new lead.now }
    {
        for _ in 0..times {
            self.add(lead, place, n);
        }
    }

    /// Makes a step of each other kind on the number of a rank, none of which changes it, and answers the number as each
    /// found it. An exchange of `guess` for itself, a fetch_sub, a fetch_or and a fetch_min.
    pub fn touch(&mut self, lead: &Lead<Tally>, place: u32, guess: u64) -> [Result<u64, u64>; 4]
        requires of { IsOf self.old lead.now }
        requires place { place < lead_key lead.now }
        ensures of { IsOf self.new lead.now }
        ensures rank { (pass_view self.new).rank ≡ (pass_view self.old).rank }
        ensures cost { (pass_view self.new).atomics ≡ (pass_view self.old).atomics + 4 }
    {
        let number = number_of(lead, place);
        let exchanged = self
            .pass
            .pass
            .cas::<Brand, ()>(lead, number, guess, guess, &());
        let lowered = self.pass.pass.fetch_sub::<Brand, ()>(lead, number, 0, &());
        let marked = self.pass.pass.fetch_or::<Brand, ()>(lead, number, 0, &());
        let least = self
            .pass
            .pass
            .fetch_min::<Brand, ()>(lead, number, u64::MAX, &());
        [exchanged, Ok(lowered), Ok(marked), Ok(least)]
    }
}

impl TallyPass<Own> {
    ghost use Rattle.bcl_tally.specs.declared.tally.Call.TheVariants.{Swap};
    ghost use Rattle.bcl_tally.specs.Parts.{pass_view, IsOf, Stands};

    /// Exchanges the number of this rank for another, and answers what it was. A get, and then a put.
    pub fn swap(&mut self, lead: &Lead<Tally>, n: u64) -> u64
        requires of { IsOf self.old lead.now }
        ensures stands { Stands lead.now self.old self.new (Swap (pass_view self.old).rank n) (Was result) }
        ensures of { IsOf self.new lead.now }
        ensures gets { (pass_view self.new).gets ≡ (pass_view self.old).gets + 1 }
        ensures puts { (pass_view self.new).puts ≡ (pass_view self.old).puts + 1 }
    {
        let place = self.rank();
        let number = number_of(lead, place);
        let pass = &mut self.pass.pass;
        let old = pass.get::<Brand, ()>(lead, number, &());
        pass.put::<Brand, (Call, u64)>(lead, number, n, &(Call::Swap { place, n }, old));
        old
    }
}
