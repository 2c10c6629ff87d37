//! How a container is made, and how a phase begins.

ghost use Rattle.std.specs.Prelude.{◌≡◌, ℕ, ◌+◌, ◌≤◌, ◌^◌, [], length, vec_capacity, None, true, false, IfOk, IfErr};
ghost use mathlib.Core.Option.{some};
ghost use lib.ListN.{get_elem?};
ghost use Rattle.bcl_segment.specs.Places.{places};
ghost use Rattle.bcl_segment.specs.Parts.{layout_of, key_of, table_of, id_of, view_of, IsSameSeat};
ghost use Rattle.bcl_phase.specs.Views.{opened};
ghost use Rattle.bcl_phase.specs.Seats.{IsHomeSeat, IsLaid};
ghost use Rattle.bcl_phase.specs.Phases.{begun};
ghost use Rattle.bcl_phase.specs.Deals.{Begins};
ghost use Rattle.bcl_phase.specs.Parts.{home_view, home_key, pass_view, pass_table, pass_layout};

use crate::home::{FIRST, Owned};
use crate::told::{Begins as Begin, Cuts};
use crate::{Grants, Home, Lead, Pass, Phased, Promise, Refused, Rested, Wraps};
use bcl_segment::{Layout, Seat, Segments};
use bcl_words::NoMemory;
use std::alloc::Global;

impl<R: Phased> Home<R> {
    /// A container whose words are these, with an empty history.
    ///
    /// `heads` is the number of head words. `words` has them first, and then the words of each rank's segment in the
    /// order of the ranks. `about` is the key of the container, fixed from then on. It makes no step.
    ///
    /// Condition: there are 1 to 64 ranks and 1 to 2^27 words, head words included; the key names as many ranks; and
    /// the words fit the first contents.
    pub fn new(
        alloc: Global,
        layout: Layout,
        heads: u32,
        words: Vec<u64>,
        about: &R::Key,
    ) -> Result<Home<R>, NoMemory>
        requires ranks { (1 ≤ layout.ranks) × (layout.ranks ≤ 64) }
        requires key { R.ranks about.now ≡ layout.ranks }
        requires laid { (heads ≡ R.heads about.now) × (layout ≡ R.layout about.now) }
        requires sound { R.sound about.now ≡ true }
        requires words { length words.items ≡ heads + places layout }
        requires count { (1 ≤ heads + places layout) × (heads + places layout ≤ 2 ^ 27) }
        requires fits { R.fits about.now 0 words.items (R.start about.now) [] }
        ensures view { IfOk result (λ h. home_view h ≡ opened about.now (R.ranks about.now) R.rest) }
        ensures key { IfOk result (λ h. home_key h ≡ about.now) }
    {
        let (segments, seat) = Segments::new(alloc, layout, heads, words, about)?;
        Ok(Home {
            owned: Owned {
                segments,
                seat,
                layout,
                heads,
            },
        })
    }

    /// Begins a phase: as many passes as there are ranks, rank i at place i, and the lead that ends it.
    ///
    /// One load of the first word, and a split for each rank. It refuses for want of memory alone, before any step, and
    /// hands the home back unchanged.
    ///
    /// `W` is the container's own pass.
    pub fn begin<P: Promise, W: Wraps<Inner = Rested<R, P>>>(
        self,
        alloc: Global,
    ) -> Result<(Lead<R>, Vec<W>), Refused<Home<R>>>
    where
        R: Grants<P>,
        ensures begins { IfOk result (λ r. Begins W.inner P.CODE self r.0 r.1.items) }
        ensures refused { IfErr result (λ e. e.home ≡ self) }
    {
        let Ok(passes) = Vec::with_capacity(alloc, self.owned.layout.ranks as usize) else {
            return Err(Refused { home: self });
        };
        let Owned {
            segments,
            mut seat,
            layout,
            heads,
        } = self.owned;
        segments.get::<Begin<R, P>>(&mut seat, FIRST);
        let passes = deal::<R, P, W>(&segments, &mut seat, layout, passes);
        Ok((
            Lead {
                segments,
                home: seat.rest(),
                layout,
                heads,
            },
            passes,
        ))
    }
}

// Splits off a pass for each rank, upward.
fn deal<R: Phased, P: Promise, W: Wraps<Inner = Rested<R, P>>>(
    segments: &Segments<R>,
    seat: &mut Seat<R>,
    layout: Layout,
    mut passes: Vec<W>,
) -> Vec<W>
    requires home { IsHomeSeat segments.now seat.old × (layout ≡ layout_of segments.now) }
    requires laid { IsLaid (R.sound (key_of segments.now)) (R.heads (key_of segments.now)) (R.layout (key_of segments.now)) (R.heads (key_of segments.now)) layout }
    requires begins { ((view_of seat.old).promise ≡ P.CODE) × ((view_of seat.old).back ≡ []) × ((view_of seat.old).passes ≡ 0) × ((view_of seat.old).words ≡ None) × ((view_of seat.old).loose ≡ false) }
    requires room { (passes.items ≡ []) × (layout.ranks ≤ vec_capacity passes) }
    ensures seat { IsSameSeat seat.old seat.new }
    ensures view { view_of seat.new ≡ record (view_of seat.old) { passes = layout.ranks } }
    ensures count { length result.items ≡ layout.ranks }
    ensures passes { (i : ℕ) (p : _) → get_elem? result.items i ≡ some p → (pass_table (W.inner p).pass ≡ id_of segments.now) × (pass_layout (W.inner p).pass ≡ layout) × (pass_view (W.inner p).pass ≡ begun R.rest P.CODE (key_of segments.now) (view_of seat.old).seen i) }
{
    for rank in 0..layout.ranks {
        let pass = segments.split::<Cuts<R>>(seat);
        let pass = Rested {
            pass: Pass::seated(pass, rank, layout),
        };
        let Ok(()) = passes.push(W::wrap(pass)) else {
            unreachable!()
        };
    }
    passes
}
