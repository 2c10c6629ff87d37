//! The calls under `Own`: each rank reads and writes in its own block.

ghost use Rattle.std.specs.Prelude.{◌≡◌, ◌+◌, ◌↔◌, [], ◌∷◌, true};
ghost use Rattle.bcl_event.specs.History.{event};
ghost use Rattle.bcl_event.specs.declared.array.ArrayCall.TheVariants.{Read, Write};
ghost use Rattle.bcl_event.specs.declared.array.ArrayReply.TheVariants.{Value, Done};
ghost use Rattle.bcl_phase.specs.Parts as phase;
ghost use Rattle.bcl_darray.specs.Calls.{Stands, IsMine, IsItemAt};
ghost use Rattle.bcl_darray.specs.Parts.{lead_key, pass_view, IsOf};

use crate::item::{read_item, write_item};
use crate::lead::ArrayLead;
use crate::pass::ArrayPass;
use bcl_phase::Own;
use bcl_words::Object;

impl<T: Object> ArrayPass<Own, T> {
    /// Whether an index lies in the block of this rank. It makes no step.
    pub fn is_mine(&self, index: u32) -> bool
        ensures mine { (result ≡ true) ↔ IsMine (pass_view self.now) index }
    {
        let items = self.pass.pass.layout().per_rank / T::WORDS as u32;
        let first = self.pass.pass.rank() * items;
        first <= index && index - first < items
    }

    /// The item at an index of this rank's own block. A get of each of its words; the read takes place at the last. It
    /// never refuses.
    #[inline]
    pub fn read(&mut self, lead: &ArrayLead<T>, index: u32) -> T
        requires of { IsOf self.old lead.now }
        requires mine { IsMine (pass_view self.old) index }
        ensures stands { Stands (lead_key lead.now) (pass_view self.old) (pass_view self.new) (event (pass_view self.old).rank (Read index) (Value (T.words result)) ∷ []) }
        ensures of { IsOf self.new lead.now }
        ensures gets { (pass_view self.new).gets ≡ (pass_view self.old).gets + T.WORDS }
        ensures puts { (pass_view self.new).puts ≡ (pass_view self.old).puts }
        ensures atomics { (pass_view self.new).atomics ≡ (pass_view self.old).atomics }
    {
        let at = self.own_item(index);
        read_item(&mut self.pass.pass, &lead.lead, at, index)
    }

    /// Writes the item at an index of this rank's own block. A put of each of its words; the write takes place at the
    /// first. It never refuses.
    #[inline]
    pub fn write(&mut self, lead: &ArrayLead<T>, index: u32, value: &T)
        requires of { IsOf self.old lead.now }
        requires mine { IsMine (pass_view self.old) index }
        ensures stands { Stands (lead_key lead.now) (pass_view self.old) (pass_view self.new) (event (pass_view self.old).rank (Write index (T.words value.now)) Done ∷ []) }
        ensures of { IsOf self.new lead.now }
        ensures gets { (pass_view self.new).gets ≡ (pass_view self.old).gets }
        ensures puts { (pass_view self.new).puts ≡ (pass_view self.old).puts + T.WORDS }
        ensures atomics { (pass_view self.new).atomics ≡ (pass_view self.old).atomics }
    {
        let at = self.own_item(index);
        write_item(&mut self.pass.pass, &lead.lead, at, index, value);
    }

    // The number of the first word of an item of this rank's own block.
    #[inline(always)]
    fn own_item(&self, index: u32) -> u32
        requires mine { IsMine (pass_view self.now) index }
        ensures at { IsItemAt T.WORDS (phase.pass_layout self.now.pass.pass) result index }
    {
        index * T::WORDS as u32
    }
}
