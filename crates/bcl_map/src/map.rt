//! What a map is: its sequential object, and what its words mean.

ghost use Rattle.bcl_phase.specs.Views.{opened};
ghost use Rattle.bcl_phase.specs.Rule.{Kept};
ghost use Rattle.bcl_map.specs.Map.{ranks, first_pairs, next, permits};
ghost use Rattle.bcl_map.specs.Notes.{rest};
ghost use Rattle.bcl_map.specs.Fits.{Holds};

use crate::note::{Note, Words};
use crate::shape::Shape;
use atomic_table::TableRule;
use bcl_event::{MapCall, MapReply};
use bcl_phase::{Find, Grants, Own, Phased, Settles, View};
use bcl_segment::Rule;
use bcl_words::{MergeLaw, Object};
use std::collections::LinkedList;
use std::marker::PhantomData;

/// The rule of a map from keys to values of some types, under a law by which values merge.
pub struct Map<K, V, L> {
    of: PhantomData<(K, V, L)>,
}

impl<K: Object, V: Object, L: MergeLaw<V>> TableRule<
    (),
    View<MapCall<Words, Words>, MapReply<Words>, Note, Shape>,
    Shape,
> for Map<K, V, L> {
    ghost holds = { Kept ranks first_pairs (next L.op) permits (Holds K.WORDS V.WORDS K.passes V.passes) };

    ghost first = { λ k. opened k (ranks k) rest };
}

impl<K: Object, V: Object, L: MergeLaw<V>> Rule for Map<K, V, L> {
    type View = View<MapCall<Words, Words>, MapReply<Words>, Note, Shape>;

    type Key = Shape;
}

impl<K: Object, V: Object, L: MergeLaw<V>> Phased for Map<K, V, L> {
    ghost use Rattle.std.specs.Prelude.{refl};
    ghost use Rattle.bcl_map.specs.Map.{laid_out, is_sound};
    ghost use Rattle.bcl_map.specs.Notes.{at_rest};
    ghost use Rattle.bcl_map.specs.Ranks.{rests, comes, goes, begins};

    type Call = MapCall<Words, Words>;

    type Reply = MapReply<Words>;

    type State = LinkedList<(Words, Words)>;

    type Note = Note;

    ghost ranks = { ranks };

    ghost heads = { λ _. 0 };

    ghost layout = { laid_out K.WORDS V.WORDS };

    ghost sound = { is_sound K.WORDS V.WORDS };

    ghost start = { first_pairs };

    ghost next = { next L.op };

    ghost permits = { permits };

    ghost rest = { rest };

    ghost idle = { at_rest };

    ghost rests = { rests };

    ghost fits = { Holds K.WORDS V.WORDS K.passes V.passes };

    ghost admits = { comes K.WORDS V.WORDS K.passes V.passes };

    ghost releases = { goes K.WORDS V.WORDS K.passes V.passes };

    ghost begins = { λ k. begins K.WORDS V.WORDS K.passes V.passes k 0 };

    ghost from = { λ k s kept. kept };

    ghost back = { λ k s kept. kept };

    ghost opens = { λ k. refl };
}

impl<K: Object, V: Object, L: MergeLaw<V>> Settles for Map<K, V, L> {
    ghost use Rattle.bcl_map.specs.Ranks.{begins};

    ghost settles = { λ k p. begins K.WORDS V.WORDS K.passes V.passes k p 0 };
}

impl<K: Object, V: Object, L: MergeLaw<V>> Grants<Find> for Map<K, V, L> {}

impl<K: Object, V: Object, L: MergeLaw<V>> Grants<Own> for Map<K, V, L> {}
