//! Who has an array alone.

use crate::array::{Array, Shape};
use crate::lead::ArrayLead;
use crate::pass::ArrayPass;
use bcl_phase::{Grants, Home, Phased, Promise, Refused};
use bcl_segment::Layout;
use bcl_words::{NoMemory, Object};
use std::alloc::Global;

/// An array that one caller has alone: no pass is out.
#[derive(Drop)]
pub struct ArrayHome<T>
where
    Array<T>: Phased,
{
    pub home: Home<Array<T>>,
}

impl<T: Object> ArrayHome<T> {
    ghost use Rattle.std.specs.Prelude.{◌≡◌, ◌*◌, ◌≤◌, ◌^◌, IfOk};
    ghost use Rattle.bcl_words.specs.Words.{Fits};
    ghost use Rattle.bcl_phase.specs.Views.{opened};
    ghost use Rattle.bcl_darray.specs.declared.array.Note.TheVariants.{Rest};
    ghost use Rattle.bcl_darray.specs.Parts as array;

    /// An array of `ranks * per_rank` items, each the fill. The item at an index is of the rank `index / per_rank`. It
    /// makes no step.
    ///
    /// Condition: an item fits; there are 1 to 64 ranks, at least one item a rank, and at most 2^27 words.
    pub fn new(alloc: Global, ranks: u32, per_rank: u32, fill: T) -> Result<ArrayHome<T>, NoMemory>
        requires fits { Fits T.WORDS }
        requires ranks { (1 ≤ ranks) × (ranks ≤ 64) }
        requires items { 1 ≤ per_rank }
        requires words { ranks * (per_rank * T.WORDS) ≤ 2 ^ 27 }
        ensures filled { IfOk result (λ h. array.home_view h ≡ opened (record { ranks = ranks; per_rank = per_rank; fill = T.words fill }) ranks Rest) }
        ensures key { IfOk result (λ h. array.home_key h ≡ record { ranks = ranks; per_rank = per_rank; fill = T.words fill }) }
    {
        let layout = Layout {
            ranks,
            per_rank: per_rank * T::WORDS as u32,
        };
        let fill = fill.to_words();
        let shape = Shape {
            ranks,
            per_rank,
            fill,
        };
        let words = fill[..T::WORDS].repeat(alloc, (ranks * per_rank) as usize)?;
        let home = Home::new(alloc, layout, 0, words, &shape)?;
        Ok(ArrayHome { home })
    }
}

impl<T> ArrayHome<T>
where
    Array<T>: Phased,
{
    ghost use Rattle.std.specs.Prelude.{◌≡◌, IfOk, IfErr};
    ghost use Rattle.bcl_phase.specs.Deals.{Begins};

    /// Begins a phase: as many passes as there are ranks, rank i at place i, and the lead that ends it.
    ///
    /// It refuses for want of memory alone, and hands the home back unchanged. An array grants `Own` and `Read`, and one
    /// of `u64` also `Any`.
    pub fn begin<P: Promise>(
        self,
        alloc: Global,
    ) -> Result<(ArrayLead<T>, Vec<ArrayPass<P, T>>), Refused<ArrayHome<T>>>
    where
        Array<T>: Grants<P>,
        ensures begins { IfOk result (λ r. Begins (λ p. p.pass) P.CODE self.home r.0.lead r.1.items) }
        ensures refused { IfErr result (λ e. e.home ≡ self) }
    {
        match self.home.begin::<P, ArrayPass<P, T>>(alloc) {
            Ok((lead, passes)) => Ok((ArrayLead { lead }, passes)),
            Err(refused) => Err(Refused {
                home: ArrayHome { home: refused.home },
            }),
        }
    }
}
