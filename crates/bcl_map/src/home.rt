//! Who has a map alone.

ghost use Rattle.std.specs.Prelude.{◌≡◌, None};
ghost use Rattle.bcl_phase.specs.Parts.{home_view};

use crate::lead::MapLead;
use crate::map::Map;
use crate::pass::MapPass;
use crate::shape::Shape;
use crate::walk::in_buckets;
use bcl_phase::{Grants, Home, Phased, Promise, Refused};
use bcl_segment::Layout;
use bcl_words::{MergeLaw, NoMemory, Object};
use std::alloc::Global;

/// A map that one caller has alone: no pass is out.
#[derive(Drop)]
pub struct MapHome<K, V, L>
where
    Map<K, V, L>: Phased,
{
    pub home: Home<Map<K, V, L>>,
    /// How many pairs its passes have counted. No contract speaks of it.
    pub(crate) pairs: usize,
    ghost unknown: { (home_view home).words ≡ None },
}

impl<K: Object, V: Object, L: MergeLaw<V>> MapHome<K, V, L> {
    ghost use Rattle.std.specs.Prelude.{◌≡◌, ◌+◌, ◌*◌, ◌≤◌, ◌^◌, IfOk};
    ghost use Rattle.bcl_words.specs.Words.{Fits};
    ghost use Rattle.bcl_phase.specs.Views.{opened};
    ghost use Rattle.bcl_map.specs.Notes.{rest};
    ghost use Rattle.bcl_map.specs.Parts as map;

    /// A map without pairs, of `ranks * per_rank` buckets. It makes no step.
    ///
    /// Condition: a key and a value fit; there are 1 to 64 ranks, at least one bucket a rank, and at most 2^27 words.
    pub fn new(alloc: Global, ranks: u32, per_rank: u32) -> Result<MapHome<K, V, L>, NoMemory>
        requires key { Fits K.WORDS }
        requires value { Fits V.WORDS }
        requires ranks { (1 ≤ ranks) × (ranks ≤ 64) }
        requires buckets { 1 ≤ per_rank }
        requires words { ranks * per_rank * (1 + (K.WORDS + V.WORDS)) ≤ 2 ^ 27 }
        ensures empty { IfOk result (λ h. map.home_view h ≡ opened (record { ranks = ranks; per_rank = per_rank; width = K.WORDS }) ranks rest) }
        ensures key { IfOk result (λ h. map.home_key h ≡ record { ranks = ranks; per_rank = per_rank; width = K.WORDS }) }
        ensures layout { IfOk result (λ h. map.home_layout h ≡ record { ranks = ranks; per_rank = per_rank * (1 + (K.WORDS + V.WORDS)) }) }
    {
        let bucket = 1 + (K::WORDS + V::WORDS) as u32;
        let layout = Layout {
            ranks,
            per_rank: per_rank * bucket,
        };
        let shape = Shape {
            ranks,
            per_rank,
            width: K::WORDS as u32,
        };
        let words = vec![in alloc; 0u64; (ranks * layout.per_rank) as usize]?;
        let home = Home::new(alloc, layout, 0, words, &shape)?;
        Ok(MapHome { home, pairs: 0 })
    }

    /// How many ranks there are, and how many buckets each has.
    pub fn shape(&self) -> Layout
        ensures shape { result ≡ record { ranks = (map.home_key self.now).ranks; per_rank = (map.home_key self.now).per_rank } }
    {
        in_buckets::<K, V>(self.home.layout())
    }
}

impl<K, V, L> MapHome<K, V, L>
where
    Map<K, V, L>: Phased,
{
    ghost use Rattle.std.specs.Prelude.{◌≡◌, IfOk, IfErr};
    ghost use Rattle.bcl_phase.specs.Deals.{Begins};

    /// Begins a phase: as many passes as there are ranks, rank i at place i, and the lead that ends it.
    ///
    /// It refuses for want of memory alone, and hands the home back unchanged. A map grants `Find` and `Own`.
    pub fn begin<P: Promise>(
        self,
        alloc: Global,
    ) -> Result<(MapLead<K, V, L>, Vec<MapPass<P, K, V, L>>), Refused<MapHome<K, V, L>>>
    where
        Map<K, V, L>: Grants<P>,
        ensures begins { IfOk result (λ r. Begins (λ p. p.pass) P.CODE self.home r.0.lead r.1.items) }
        ensures refused { IfErr result (λ e. e.home.home ≡ self.home) }
    {
        let pairs = self.pairs;
        match self.home.begin::<P, MapPass<P, K, V, L>>(alloc) {
            Ok((lead, passes)) => Ok((MapLead { lead, pairs }, passes)),
            Err(refused) => Err(Refused {
                home: MapHome {
                    home: refused.home,
                    pairs,
                },
            }),
        }
    }
}
