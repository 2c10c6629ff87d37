//! How a phase ends.

ghost use Rattle.std.specs.Prelude.{◌≡◌};
ghost use Rattle.bcl_segment.specs.Parts.{id_of, key_of, layout_of, heads_of, view_of};
ghost use Rattle.bcl_phase.specs.Parts.{lead_id, lead_key, lead_layout, lead_heads, lead_view};
ghost use Rattle.bcl_phase.specs.Deals.{AreAll, AreBack, Ends, EndsLoose};

use crate::home::{FIRST, Owned};
use crate::told::{Closes, ClosesLoose, Takes};
use crate::{Grants, Home, Lead, Loose, Phased, Promise, Rested, Settles, Wraps};

impl<R: Phased> Lead<R> {
    /// Ends the phase, and consumes its passes. The home has seen the whole history.
    ///
    /// One join for each rank, the last rank first, and one load of the first word. It never refuses.
    ///
    /// Condition: the passes are all those of this lead, rank i at place i.
    pub fn end<P: Promise, W: Wraps<Inner = Rested<R, P>>>(self, passes: Vec<W>) -> Home<R>
    where
        R: Grants<P> + Settles,
        requires all { AreAll W.inner self passes.items }
        ensures ends { Ends W.inner P.CODE self passes.items result }
    {
        let Owned {
            segments,
            mut seat,
            layout,
            heads,
        } = self.gather(passes);
        segments.get::<Closes<R>>(&mut seat, FIRST);
        Home {
            owned: Owned {
                segments,
                seat,
                layout,
                heads,
            },
        }
    }

    /// Ends the phase as `end` does, of a container whose words the phase may leave in disorder: they are loose, and fit as
    /// the phase left them.
    ///
    /// One join for each rank, the last rank first, and one load of the first word. It never refuses.
    ///
    /// Condition: as of `end`.
    pub fn end_loose<P: Promise, W: Wraps<Inner = Rested<R, P>>>(self, passes: Vec<W>) -> Loose<R>
    where
        R: Grants<P>,
        requires all { AreAll W.inner self passes.items }
        ensures ends { EndsLoose W.inner P.CODE self passes.items result }
    {
        let Owned {
            segments,
            mut seat,
            layout,
            heads,
        } = self.gather(passes);
        segments.get::<ClosesLoose<R>>(&mut seat, FIRST);
        Loose {
            owned: Owned {
                segments,
                seat,
                layout,
                heads,
            },
        }
    }

    // Takes the passes back, the last rank first.
    fn gather<P: Promise, W: Wraps<Inner = Rested<R, P>>>(self, mut passes: Vec<W>) -> Owned<R>
        requires all { AreAll W.inner self passes.items }
        ensures same { (lead_id self ≡ id_of result.segments) × (lead_key self ≡ key_of result.segments) × (lead_layout self ≡ layout_of result.segments) × (lead_heads self ≡ heads_of result.segments) }
        ensures back { AreBack W.inner P.CODE self passes.items (view_of result.seat) }
    {
        let Lead {
            segments,
            home,
            layout,
            heads,
        } = self;
        let mut seat = home.wake();
        while let Some(pass) = passes.pop() {
            segments.join::<Takes<R>>(&mut seat, pass.into_inner().pass.into_seat());
        }
        Owned {
            segments,
            seat,
            layout,
            heads,
        }
    }
}
