//! What the filter is: its sequential object, and what its words mean.

ghost use Rattle.bcl_phase.specs.Views.{opened};
ghost use Rattle.bcl_phase.specs.Rule.{Kept};
ghost use Rattle.bcl_bloom.specs.Bloom.{ranks, start, next, permits, fits};
ghost use Rattle.bcl_words.specs.Words.{is_fit};

use atomic_table::TableRule;
use bcl_event::{FilterCall, FilterReply};
use bcl_phase::{Any, Grants, Phased, Settles, View};
use bcl_segment::{Layout, Rule};
use bcl_words::Object;
use std::collections::LinkedList;
use std::marker::PhantomData;

/// A list of words, as events name a key.
pub type Words = LinkedList<u64>;

/// The rule of a Bloom filter of keys of one type. What is fixed when it is made is its layout, each place of which is a
/// block of 64 marks.
pub struct Filter<K> {
    of: PhantomData<K>,
}

impl<K: Object> TableRule<(), View<FilterCall<Words>, FilterReply, (), Layout>, Layout>
    for Filter<K> {
    ghost holds = { Kept ranks start (next K.WORDS) permits (fits K.WORDS) };

    ghost first = { λ k. opened k (ranks k) tt };
}

impl<K: Object> Rule for Filter<K> {
    type View = View<FilterCall<Words>, FilterReply, (), Layout>;

    type Key = Layout;
}

impl<K: Object> Phased for Filter<K> {
    ghost use Rattle.std.specs.Prelude.{true, refl};

    type Call = FilterCall<Words>;

    type Reply = FilterReply;

    type State = LinkedList<Words>;

    type Note = ();

    ghost ranks = { ranks };

    ghost heads = { λ _. 0 };

    ghost layout = { λ layout. layout };

    ghost sound = { λ _. is_fit K.WORDS };

    ghost start = { start };

    ghost next = { next K.WORDS };

    ghost permits = { permits };

    ghost rest = { tt };

    ghost idle = { λ _ _. true };

    ghost rests = { λ _. refl };

    ghost fits = { fits K.WORDS };

    ghost admits = { λ k p ws t xs few fit. fit };

    ghost releases = { λ k p ws t xs y idle fit. fit };

    ghost begins = { λ k q ws t fit. fit };

    ghost from = { λ k s kept. kept };

    ghost back = { λ k s kept. kept };

    ghost opens = { λ k. refl };
}

impl<K: Object> Settles for Filter<K> {
    ghost settles = { λ k p ws t fit. fit };
}

impl<K: Object> Grants<Any> for Filter<K> {}
