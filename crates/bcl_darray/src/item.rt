//! An item of several words, got or put word by word.
//!
//! No other rank puts words of it meanwhile, so it is read whole.

ghost use Rattle.std.specs.Prelude.{◌≡◌, ◌+◌, ◌/◌, ◌^◌, ◌<◌, [], ◌∷◌};
ghost use Rattle.bcl_words.specs.Words.{Fits};
ghost use Rattle.bcl_event.specs.History.{event};
ghost use Rattle.bcl_event.specs.declared.array.ArrayCall.TheVariants.{Read, Write};
ghost use Rattle.bcl_event.specs.declared.array.ArrayReply.TheVariants.{Value, Done};
ghost use Rattle.bcl_phase.specs.Parts.{lead_key, lead_layout, pass_view, IsOf};
ghost use Rattle.bcl_darray.specs.Array.{size};
ghost use Rattle.bcl_darray.specs.Fits.{IsFixed};
ghost use Rattle.bcl_darray.specs.Calls.{IsItemAt, IsAtRest, Stands};

use crate::array::Array;
use bcl_phase::{Lead, Own, Pass, Promise};
use bcl_segment::Spot;
use bcl_words::Object;
use std::marker::Brand;

/// Reads the item whose first word has the number `at`. A get of each of its words: the read takes place at the last.
#[inline]
pub(crate) fn read_item<T: Object, P: Promise>(
    pass: &mut Pass<Array<T>, P>,
    lead: &Lead<Array<T>>,
    at: u32,
    index: u32,
) -> T
    requires fits { Fits T.WORDS }
    requires of { IsOf pass.old lead.now }
    requires at { IsItemAt T.WORDS (lead_layout lead.now) at index }
    requires within { index < size (lead_key lead.now) }
    requires fixed { IsFixed (lead_key lead.now) P.CODE (pass_view pass.old).rank index }
    requires rest { IsAtRest pass.old }
    ensures stands { Stands (lead_key lead.now) (pass_view pass.old) (pass_view pass.new) (event (pass_view pass.old).rank (Read index) (Value (T.words result)) ∷ []) }
    ensures rest { IsAtRest pass.new }
    ensures of { IsOf pass.new lead.now }
    ensures gets { (pass_view pass.new).gets ≡ (pass_view pass.old).gets + T.WORDS }
    ensures puts { (pass_view pass.new).puts ≡ (pass_view pass.old).puts }
    ensures atomics { (pass_view pass.new).atomics ≡ (pass_view pass.old).atomics }
{
    let mut words = [0u64; 8];
    let last = T::WORDS - 1;
    for j in 0..last {
        words[j] = pass.get::<Brand, (u32, usize)>(lead, Spot::word_of(at, j), &(index, j));
    }
    words[last] = pass.get::<Brand, (u32, usize)>(lead, Spot::word_of(at, last), &(index, last));
    let Some(item) = T::from_words(&words) else {
        unreachable!()
    };
    item
}

/// Writes the item whose first word has the number `at`. A put of each of its words: the write takes place at the first.
#[inline]
pub(crate) fn write_item<T: Object>(
    pass: &mut Pass<Array<T>, Own>,
    lead: &Lead<Array<T>>,
    at: u32,
    index: u32,
    item: &T,
)
    requires fits { Fits T.WORDS }
    requires of { IsOf pass.old lead.now }
    requires at { IsItemAt T.WORDS (lead_layout lead.now) at index }
    requires within { index < size (lead_key lead.now) }
    requires mine { index / (lead_key lead.now).per_rank ≡ (pass_view pass.old).rank }
    requires rest { IsAtRest pass.old }
    ensures stands { Stands (lead_key lead.now) (pass_view pass.old) (pass_view pass.new) (event (pass_view pass.old).rank (Write index (T.words item.now)) Done ∷ []) }
    ensures rest { IsAtRest pass.new }
    ensures of { IsOf pass.new lead.now }
    ensures gets { (pass_view pass.new).gets ≡ (pass_view pass.old).gets }
    ensures puts { (pass_view pass.new).puts ≡ (pass_view pass.old).puts + T.WORDS }
    ensures atomics { (pass_view pass.new).atomics ≡ (pass_view pass.old).atomics }
{
    let words = item.to_words();
    let about = (index, *item);
    pass.put::<Brand, (u32, T)>(lead, Spot::word_of(at, 0), words[0], &about);
    for j in 1..T::WORDS {
        pass.put::<Brand, (u32, T)>(lead, Spot::word_of(at, j), words[j], &about);
    }
}
