//! What an array is: its sequential object, and what its words mean.

ghost use Rattle.bcl_phase.specs.Views.{opened};
ghost use Rattle.bcl_phase.specs.Rule.{Kept};
ghost use Rattle.bcl_darray.specs.Array.{ranks, laid_out, start, next, permits};
ghost use Rattle.bcl_darray.specs.Fits.{Fits};

use atomic_table::TableRule;
use bcl_event::{ArrayCall, ArrayReply};
use bcl_phase::{Any, Flight, Grants, Own, Phased, Read, Settles, View};
use bcl_segment::Rule;
use bcl_words::Object;
use std::collections::LinkedList;
use std::marker::PhantomData;

/// A list of words, as events name an item.
pub type Words = LinkedList<u64>;

/// What is fixed when an array is made.
#[derive(Clone, Copy, Debug, PartialEq, Eq)]
pub struct Shape {
    pub ranks: u32,
    /// How many items each rank has.
    pub per_rank: u32,
    /// The eight words of the item that it is filled with.
    pub fill: [u64; 8],
}

/// A call in flight.
pub enum Note {
    /// There is none.
    Rest,
    /// A read that has got some words of the item at a place.
    Getting(Flight),
    /// A write that has put some words of the item at a place.
    Putting(Flight),
}

/// The rule of an array of items of one type.
pub struct Array<T> {
    of: PhantomData<T>,
}

impl<T: Object> TableRule<(), View<ArrayCall<Words>, ArrayReply<Words>, Note, Shape>, Shape>
    for Array<T> {
    ghost use Rattle.bcl_darray.specs.declared.array.Note.TheVariants.{Rest};

    ghost holds = { Kept ranks start next permits (Fits T.WORDS T.passes) };

    ghost first = { λ k. opened k (ranks k) Rest };
}

impl<T: Object> Rule for Array<T> {
    type View = View<ArrayCall<Words>, ArrayReply<Words>, Note, Shape>;

    type Key = Shape;
}

impl<T: Object> Phased for Array<T> {
    ghost use Rattle.std.specs.Prelude.{refl};
    ghost use Rattle.bcl_words.specs.Words.{is_fit};
    ghost use Rattle.bcl_darray.specs.Ranks.{is_rest, admitted, released, renewed};
    ghost use Rattle.bcl_darray.specs.declared.array.Note.TheVariants.{Rest};

    type Call = ArrayCall<Words>;

    type Reply = ArrayReply<Words>;

    type State = LinkedList<Words>;

    type Note = Note;

    ghost ranks = { ranks };

    ghost heads = { λ _. 0 };

    ghost layout = { laid_out T.WORDS };

    ghost sound = { λ _. is_fit T.WORDS };

    ghost start = { start };

    ghost next = { next };

    ghost permits = { permits };

    ghost rest = { Rest };

    ghost idle = { λ _. is_rest };

    ghost rests = { λ _. refl };

    ghost fits = { Fits T.WORDS T.passes };

    ghost admits = { admitted T.WORDS T.passes };

    ghost releases = { released T.WORDS T.passes };

    ghost begins = { λ k. renewed T.WORDS T.passes k 0 };

    ghost from = { λ k s kept. kept };

    ghost back = { λ k s kept. kept };

    ghost opens = { λ k. refl };
}

impl<T: Object> Settles for Array<T> {
    ghost use Rattle.bcl_darray.specs.Ranks.{renewed};

    ghost settles = { λ k p. renewed T.WORDS T.passes k p 0 };
}

impl Grants<Any> for Array<u64> {}

impl<T: Object> Grants<Own> for Array<T> {}

impl<T: Object> Grants<Read> for Array<T> {}
