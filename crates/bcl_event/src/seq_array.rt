//! The array that one caller steps.

ghost use Rattle.std.specs.Prelude.{◌≡◌, ◌<◌, length, replicate, true, IfOk};
ghost use Rattle.bcl_words.specs.Words.{Fits};
ghost use Rattle.bcl_event.specs.Array.{array_step, array_call, array_reply, place_of, MakesItems};

use crate::array::{ArrayCall, ArrayReply};
use crate::numbers::{number_of, value_of};
use bcl_words::{NoMemory, Object};
use std::alloc::Global;
use std::marker::Model;

/// An array of items of one type, which answers as its definition says. A contract sees it as the list of the words of its items.
#[derive(Drop)]
pub struct SeqArray<T: Object> {
    items: Vec<T>,
}

impl<T: Object> Model for SeqArray<T> {
    ghost use Rattle.std.specs.Prelude.{ℕ, List, map};

    ghost Value = { List (List ℕ) };

    ghost view = { λ a. map T.words a.items.items };
}

impl<T: Object> SeqArray<T> {
    /// An array of `len` items, each the fill.
    pub fn new(alloc: Global, len: u32, fill: T) -> Result<SeqArray<T>, NoMemory>
        ensures { IfOk result (λ array. array ≡ replicate len (T.words fill)) }
    {
        let mut items = Vec::new(alloc);
        items.resize(len as usize, fill)?;
        Ok(SeqArray { items })
    }

    /// Makes a call, in constant time and without memory. The place that it names is below the length; where it makes a
    /// number, the word of this number, with zeros behind it, is that of an item, as it always is for `u64`.
    pub fn step(&mut self, call: &ArrayCall<T>) -> ArrayReply<T>
        requires fits { Fits T.WORDS }
        requires place { place_of call.now < length self.old }
        requires item { MakesItems T.passes self.old call.now }
        ensures reply { array_reply T.words result ≡ (array_step self.old (array_call T.words call.now)).0 }
        ensures state { self.new ≡ (array_step self.old (array_call T.words call.now)).1 }
    {
        match call {
            ArrayCall::Read(place) => ArrayReply::Value(self.items[*place as usize]),
            ArrayCall::Write(place, item) => {
                self.items[*place as usize] = *item;
                ArrayReply::Done
            }
            ArrayCall::FetchAdd(place, n) => {
                let was = number_of(&self.items[*place as usize]);
                self.items[*place as usize] = value_of(was.wrapping_add(*n));
                ArrayReply::Was(was)
            }
            ArrayCall::FetchMin(place, n) => {
                let was = number_of(&self.items[*place as usize]);
                self.items[*place as usize] = value_of(was.min(*n));
                ArrayReply::Was(was)
            }
        }
    }
}
