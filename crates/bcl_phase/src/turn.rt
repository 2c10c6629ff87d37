//! How one phase turns into the next.

ghost use Rattle.std.specs.Prelude.{IfOk, IfErr};
ghost use Rattle.bcl_phase.specs.Deals.{AreAll, Ends, Turns};

use crate::{Grants, Home, Lead, Phased, Promise, Refused, Rested, Settles, Wraps};
use std::alloc::Global;

impl<R: Phased> Lead<R> {
    /// Ends the phase and begins the next, under another promise: the barrier between two supersteps.
    ///
    /// It is `end` and then `begin`. It refuses for want of memory alone, and hands back the home of `end`.
    ///
    /// Condition: as of `end`.
    pub fn turn<
        P: Promise,
        Q: Promise,
        W: Wraps<Inner = Rested<R, P>>,
        X: Wraps<Inner = Rested<R, Q>>,
    >(self, alloc: Global, passes: Vec<W>) -> Result<(Lead<R>, Vec<X>), Refused<Home<R>>>
    where
        R: Grants<P> + Grants<Q> + Settles,
        requires all { AreAll W.inner self passes.items }
        ensures turns { IfOk result (λ r. Turns W.inner X.inner P.CODE Q.CODE self passes.items r.0 r.1.items) }
        ensures refused { IfErr result (λ e. Ends W.inner P.CODE self passes.items e.home) }
    {
        self.end::<P, W>(passes).begin::<Q, X>(alloc)
    }
}
