//! One rank's part in a phase of a map.

use crate::lead::MapLead;
use crate::map::Map;
use crate::walk::{Start, in_buckets, start_near};
use bcl_bucket::home_rank;
use bcl_phase::{Phased, Promise, Rested, Wraps};
use bcl_words::{MergeLaw, Object};

/// One rank's part in a phase of a map under the promise P. It may go to another thread.
#[derive(Drop)]
pub struct MapPass<P: Promise, K, V, L>
where
    Map<K, V, L>: Phased,
{
    pub pass: Rested<Map<K, V, L>, P>,
    /// How many of its calls were answered `New`. No contract speaks of it.
    pub(crate) stored: usize,
}

impl<P: Promise, K, V, L> Wraps for MapPass<P, K, V, L>
where
    Map<K, V, L>: Phased,
{
    type Inner = Rested<Map<K, V, L>, P>;

    ghost inner = { λ pass. pass.pass };

    fn wrap(it: Rested<Map<K, V, L>, P>) -> Self {
        MapPass {
            pass: it,
            stored: 0,
        }
    }

    fn into_inner(self) -> Rested<Map<K, V, L>, P> {
        self.pass
    }
}

impl<P: Promise, K: Object, V: Object, L: MergeLaw<V>> MapPass<P, K, V, L> {
    ghost use Rattle.std.specs.Prelude.{◌≡◌, ◌↔◌, true};
    ghost use Rattle.bcl_map.specs.Calls.{IsMine, start_at};
    ghost use Rattle.bcl_map.specs.Parts.{lead_key, IsOf};
    ghost use Rattle.bcl_map.specs.Parts as map;

    /// The number of this rank, from 0.
    pub fn rank(&self) -> u32
        ensures rank { result ≡ (map.pass_view self.now).rank }
    {
        self.pass.pass.rank()
    }

    /// Where the path of a key begins. Its first control word is brought near by a load that tells nothing, so that calls
    /// of keys whose starts are asked for before don't wait for memory one after another. It makes no step.
    #[inline]
    pub fn start(&self, lead: &MapLead<K, V, L>, key: &K) -> Start
        requires of { IsOf self.now lead.now }
        ensures start { result ≡ start_at (lead_key lead.now) (K.words key.now) }
    {
        start_near(&self.pass.pass, &lead.lead, &key.to_words())
    }

    /// Whether the home of a key is this rank. It makes no step.
    pub fn is_mine(&self, key: &K) -> bool
        ensures mine { (result ≡ true) ↔ IsMine (map.pass_view self.now) (K.words key.now) }
    {
        let buckets = in_buckets::<K, V>(self.pass.pass.layout());
        home_rank(key, buckets) == self.rank()
    }
}
