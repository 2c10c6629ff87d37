//! The calls under `Any`, of an array of numbers: each is one step, on any item.

ghost use Rattle.std.specs.Prelude.{◌≡◌, ◌+◌, ◌<◌, [], ◌∷◌};
ghost use Rattle.bcl_words.specs.Numbers.{one_word};
ghost use Rattle.bcl_event.specs.History.{event};
ghost use Rattle.bcl_event.specs.declared.array.ArrayCall.TheVariants.{Read, Write, FetchAdd, FetchMin};
ghost use Rattle.bcl_event.specs.declared.array.ArrayReply.TheVariants.{Value, Done, Was};
ghost use Rattle.bcl_phase.specs.Parts as phase;
ghost use Rattle.bcl_darray.specs.Array.{size};
ghost use Rattle.bcl_darray.specs.Calls.{Stands};
ghost use Rattle.bcl_darray.specs.Parts.{lead_key, pass_view, IsOf};

use crate::lead::ArrayLead;
use crate::pass::ArrayPass;
use bcl_phase::Any;
use bcl_segment::Spot;
use std::marker::Brand;

impl ArrayPass<Any, u64> {
    /// The number at an index. One get. It never refuses.
    #[inline]
    pub fn read(&mut self, lead: &ArrayLead<u64>, index: u32) -> u64
        requires of { IsOf self.old lead.now }
        requires within { index < size (lead_key lead.now) }
        ensures stands { Stands (lead_key lead.now) (pass_view self.old) (pass_view self.new) (event (pass_view self.old).rank (Read index) (Value (one_word result)) ∷ []) }
        ensures of { IsOf self.new lead.now }
        ensures gets { (pass_view self.new).gets ≡ (pass_view self.old).gets + 1 }
        ensures puts { (pass_view self.new).puts ≡ (pass_view self.old).puts }
        ensures atomics { (pass_view self.new).atomics ≡ (pass_view self.old).atomics }
    {
        let spot = self.number(lead, index);
        self.pass.pass.get::<Brand, u32>(&lead.lead, spot, &index)
    }

    /// Writes the number at an index. One put. It never refuses.
    #[inline]
    pub fn write(&mut self, lead: &ArrayLead<u64>, index: u32, value: u64)
        requires of { IsOf self.old lead.now }
        requires within { index < size (lead_key lead.now) }
        ensures stands { Stands (lead_key lead.now) (pass_view self.old) (pass_view self.new) (event (pass_view self.old).rank (Write index (one_word value)) Done ∷ []) }
        ensures of { IsOf self.new lead.now }
        ensures gets { (pass_view self.new).gets ≡ (pass_view self.old).gets }
        ensures puts { (pass_view self.new).puts ≡ (pass_view self.old).puts + 1 }
        ensures atomics { (pass_view self.new).atomics ≡ (pass_view self.old).atomics }
    {
        let spot = self.number(lead, index);
        self.pass
            .pass
            .put::<Brand, (u32, u64)>(&lead.lead, spot, value, &(index, value));
    }

    /// Adds to the number at an index, and answers what it was. The sum wraps at 2^64. One `fetch_add`. It never refuses.
    #[inline]
    pub fn fetch_add(&mut self, lead: &ArrayLead<u64>, index: u32, n: u64) -> u64
        requires of { IsOf self.old lead.now }
        requires within { index < size (lead_key lead.now) }
        ensures stands { Stands (lead_key lead.now) (pass_view self.old) (pass_view self.new) (event (pass_view self.old).rank (FetchAdd index n) (Was result) ∷ []) }
        ensures of { IsOf self.new lead.now }
        ensures gets { (pass_view self.new).gets ≡ (pass_view self.old).gets }
        ensures puts { (pass_view self.new).puts ≡ (pass_view self.old).puts }
        ensures atomics { (pass_view self.new).atomics ≡ (pass_view self.old).atomics + 1 }
    {
        let spot = self.number(lead, index);
        self.pass
            .pass
            .fetch_add::<Brand, (u32, u64)>(&lead.lead, spot, n, &(index, n))
    }

    /// Makes the number at an index the lesser of itself and `n`, and answers what it was. One `fetch_min`. It never
    /// refuses.
    #[inline]
    pub fn fetch_min(&mut self, lead: &ArrayLead<u64>, index: u32, n: u64) -> u64
        requires of { IsOf self.old lead.now }
        requires within { index < size (lead_key lead.now) }
        ensures stands { Stands (lead_key lead.now) (pass_view self.old) (pass_view self.new) (event (pass_view self.old).rank (FetchMin index n) (Was result) ∷ []) }
        ensures of { IsOf self.new lead.now }
        ensures gets { (pass_view self.new).gets ≡ (pass_view self.old).gets }
        ensures puts { (pass_view self.new).puts ≡ (pass_view self.old).puts }
        ensures atomics { (pass_view self.new).atomics ≡ (pass_view self.old).atomics + 1 }
    {
        let spot = self.number(lead, index);
        self.pass
            .pass
            .fetch_min::<Brand, (u32, u64)>(&lead.lead, spot, n, &(index, n))
    }

    // Where the number at an index stands.
    #[inline(always)]
    fn number(&self, lead: &ArrayLead<u64>, index: u32) -> Spot
        requires of { IsOf self.now lead.now }
        requires within { index < size (lead_key lead.now) }
        ensures spot { phase.HasSpot lead.now.lead result }
        ensures word { phase.lead_word lead.now.lead result ≡ index }
    {
        Spot::word(index)
    }
}
