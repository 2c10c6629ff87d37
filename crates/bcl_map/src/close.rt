//! How a map closes, and what a closed map has.

ghost use Rattle.std.specs.Prelude.{◌≡◌, Some, IfOk, IfErr};
ghost use Rattle.bcl_phase.specs.Parts.{closed_view};
ghost use Rattle.bcl_map.specs.Closed.{in_words, IsReplay, IsOnce};

use crate::home::MapHome;
use crate::map::Map;
use crate::pairs::list_pairs;
use bcl_phase::{Closed, Refused};
use bcl_words::{MergeLaw, Object};
use std::alloc::Global;

/// A map that is closed: its pairs, and what its home knew. Only `close` makes one.
#[derive(Drop)]
pub struct ClosedMap<K: Object, V: Object, L: MergeLaw<V>> {
    pairs: Vec<(K, V)>,
    pub(crate) closed: Closed<Map<K, V, L>>,
    ghost replay: { IsReplay K.WORDS V.WORDS L.op (closed_view closed) (in_words K.words V.words pairs.items) },
    ghost once: { IsOnce (in_words K.words V.words pairs.items) },
}

impl<K: Object, V: Object, L: MergeLaw<V>> MapHome<K, V, L> {
    ghost use Rattle.bcl_map.specs.Parts as map;

    /// Closes the map: its pairs are listed, and its words given back.
    ///
    /// It goes once over the words. The memory of the list it takes before, of as many pairs as the passes stored anew. It
    /// refuses for want of that memory alone, and hands the home back as it was.
    pub fn close(self, alloc: Global) -> Result<ClosedMap<K, V, L>, Refused<MapHome<K, V, L>>>
        ensures book { IfOk result (λ c. ((map.closed_view c).seen ≡ (map.home_view self).seen) × ((map.closed_view c).key ≡ Some (map.home_key self))) }
        ensures refused { IfErr result (λ e. map.IsAsBefore self e.home) }
    {
        let many = self.pairs;
        let mut home = self.home;
        home.learn();
        let Ok(pairs) = list_pairs(alloc, &mut home, many) else {
            home.forget();
            return Err(Refused {
                home: MapHome { home, pairs: many },
            });
        };
        Ok(ClosedMap {
            pairs,
            closed: home.close(),
        })
    }
}

impl<K: Object, V: Object, L: MergeLaw<V>> ClosedMap<K, V, L> {
    ghost use Rattle.bcl_map.specs.Parts as map;

    /// All pairs, in the order of the buckets.
    pub fn entries(&self) -> &[(K, V)]
        ensures replay { IsReplay K.WORDS V.WORDS L.op (map.closed_view self.now) (in_words K.words V.words result.now) }
        ensures once { IsOnce (in_words K.words V.words result.now) }
    {
        self.pairs.as_slice()
    }
}
