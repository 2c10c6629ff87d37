//! Who has a filter alone.

use crate::filter::Filter;
use crate::lead::FilterLead;
use crate::pass::FilterPass;
use bcl_phase::{Grants, Home, Phased, Promise, Refused};
use bcl_segment::Layout;
use bcl_words::{NoMemory, Object};
use std::alloc::Global;

/// A filter that one caller has alone: no pass is out.
#[derive(Drop)]
pub struct FilterHome<K>
where
    Filter<K>: Phased,
{
    pub home: Home<Filter<K>>,
}

impl<K: Object> FilterHome<K> {
    ghost use Rattle.std.specs.Prelude.{◌≡◌, ◌*◌, ◌≤◌, ◌^◌, IfOk};
    ghost use Rattle.bcl_words.specs.Words.{Fits};
    ghost use Rattle.bcl_phase.specs.Views.{opened};
    ghost use Rattle.bcl_phase.specs.Parts.{home_view, home_key};

    /// A filter that holds nothing, of `ranks * per_rank` blocks of one word, each with 64 marks. It makes no step.
    ///
    /// Condition: a key fits; there are 1 to 64 ranks and 1 to 2^27 blocks.
    pub fn new(alloc: Global, ranks: u32, per_rank: u32) -> Result<FilterHome<K>, NoMemory>
        requires fits { Fits K.WORDS }
        requires ranks { (1 ≤ ranks) × (ranks ≤ 64) }
        requires blocks { (1 ≤ ranks * per_rank) × (ranks * per_rank ≤ 2 ^ 27) }
        ensures empty { IfOk result (λ h. home_view h.home ≡ opened (record { ranks = ranks; per_rank = per_rank }) ranks tt) }
        ensures key { IfOk result (λ h. home_key h.home ≡ record { ranks = ranks; per_rank = per_rank }) }
    {
        let layout = Layout { ranks, per_rank };
        let blocks = vec![in alloc; 0u64; (ranks * per_rank) as usize]?;
        let home = Home::new(alloc, layout, 0, blocks, &layout)?;
        Ok(FilterHome { home })
    }
}

impl<K> FilterHome<K>
where
    Filter<K>: Phased,
{
    ghost use Rattle.std.specs.Prelude.{◌≡◌, IfOk, IfErr};
    ghost use Rattle.bcl_phase.specs.Deals.{Begins};

    /// Begins a phase: as many passes as there are ranks, rank i at place i, and the lead that ends it.
    ///
    /// It refuses for want of memory alone, and hands the home back unchanged. `Any` is the one promise that the filter
    /// grants.
    pub fn begin<P: Promise>(
        self,
        alloc: Global,
    ) -> Result<(FilterLead<K>, Vec<FilterPass<P, K>>), Refused<FilterHome<K>>>
    where
        Filter<K>: Grants<P>,
        ensures begins { IfOk result (λ r. Begins (λ p. p.pass) P.CODE self.home r.0.lead r.1.items) }
        ensures refused { IfErr result (λ e. e.home ≡ self) }
    {
        match self.home.begin::<P, FilterPass<P, K>>(alloc) {
            Ok((lead, passes)) => Ok((FilterLead { lead }, passes)),
            Err(refused) => Err(Refused {
                home: FilterHome { home: refused.home },
            }),
        }
    }
}
