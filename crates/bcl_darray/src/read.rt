//! The call under `Read`: every rank reads any item, and none writes.

ghost use Rattle.std.specs.Prelude.{◌≡◌, ◌+◌, ◌<◌, [], ◌∷◌};
ghost use Rattle.bcl_event.specs.History.{event};
ghost use Rattle.bcl_event.specs.declared.array.ArrayCall.TheVariants.{Read as a_read};
ghost use Rattle.bcl_event.specs.declared.array.ArrayReply.TheVariants.{Value};
ghost use Rattle.bcl_darray.specs.Array.{size};
ghost use Rattle.bcl_darray.specs.Calls.{Stands, IsItemAt};
ghost use Rattle.bcl_darray.specs.Parts.{lead_key, pass_view, IsOf};

use crate::item::read_item;
use crate::lead::ArrayLead;
use crate::pass::ArrayPass;
use bcl_phase::Read;
use bcl_words::Object;

impl<T: Object> ArrayPass<Read, T> {
    /// The item at an index. A get of each of its words; the read takes place at the last. It never refuses.
    #[inline]
    pub fn read(&mut self, lead: &ArrayLead<T>, index: u32) -> T
        requires of { IsOf self.old lead.now }
        requires within { index < size (lead_key lead.now) }
        ensures stands { Stands (lead_key lead.now) (pass_view self.old) (pass_view self.new) (event (pass_view self.old).rank (a_read index) (Value (T.words result)) ∷ []) }
        ensures of { IsOf self.new lead.now }
        ensures gets { (pass_view self.new).gets ≡ (pass_view self.old).gets + T.WORDS }
        ensures puts { (pass_view self.new).puts ≡ (pass_view self.old).puts }
        ensures atomics { (pass_view self.new).atomics ≡ (pass_view self.old).atomics }
    {
        let at = index * T::WORDS as u32;
        read_item(&mut self.pass.pass, &lead.lead, at, index)
    }
}
