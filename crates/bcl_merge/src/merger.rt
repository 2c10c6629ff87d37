//! A function that answers a law, to be handed to what merges by it.

ghost use Rattle.std.specs.Prelude.{◌≡◌};
ghost use Rattle.bcl_words.specs.Words.{Fits};
ghost use Rattle.bcl_words.specs.Merges.{AnswersLaw};

use bcl_words::{MergeLaw, Object};
use std::marker::{Model, PhantomData, Sync};

/// A function by which two values become one. Ranks may share it, and a contract sees the function.
///
/// Each call that merges by it asks that values fit and that the function answers the law `L`, since a struct keeps no
/// fact about what a function answers.
#[derive(Drop)]
pub struct Merger<V, L, F> {
    function: F,
    of: PhantomData<(V, L)>,
}

impl<V, L, F> Model for Merger<V, L, F> {
    ghost Value = { F };

    ghost view = { λ merger. merger.function };
}

impl<V: Object, L: MergeLaw<V>, F: Fn(V, V) -> V + Sync> Merger<V, L, F> {
    /// A merger by a function that answers the law. One that is generic is given by a closure at a type, as
    /// `|a: u64, b: u64| least_words(a, b)`.
    pub fn new(f: F) -> Merger<V, L, F>
        requires fits { Fits V.WORDS }
        requires law { AnswersLaw V.passes V.words L.op (F.pre f) (F.post f) }
        ensures function { result ≡ f }
    {
        Merger {
            function: f,
            of: PhantomData,
        }
    }

    /// What two values become: by the law, so it doesn't matter which of them comes first.
    pub fn apply(&self, a: V, b: V) -> V
        requires fits { Fits V.WORDS }
        requires law { AnswersLaw V.passes V.words L.op (F.pre self.now) (F.post self.now) }
        ensures { V.words result ≡ L.op (V.words a) (V.words b) }
    {
        // the law is of values whose words pass, and to_words says that these do
        let _ = a.to_words();
        let _ = b.to_words();
        (self.function)(a, b)
    }
}
