//! Passes that kits carry.

ghost use Rattle.std.specs.Prelude.{◌≡◌, ◌+◌, ℕ, map, reverse, length, IfOk};
ghost use mathlib.Core.Option.{some};
ghost use lib.ListN.{get_elem?};
ghost use Rattle.bcl_phase.specs.Parts.{lead_layout};
ghost use Rattle.bcl_phase.specs.Deals.{view, IsIn, AreAll};

use crate::{Lead, Phased, Promise, Rested, Wraps};
use bcl_words::NoMemory;
use std::alloc::Global;

/// A kit that carries a pass, which can be taken out of it.
pub trait Carries: Drop {
    type Pass;

    // the pass that it carries
    ghost pass: { Self → Self.Pass };

    fn into_pass(self) -> Self::Pass
        ensures pass { result ≡ pass self };
}

/// The passes of kits, in the order of their ranks, as `end` and `turn` take them.
///
/// It takes the memory of the list first, and refuses for want of it alone: then the passes are gone. Condition: the kits
/// carry all passes of the lead, that of the last rank first.
pub fn passes_of<R: Phased, P: Promise, W: Wraps<Inner = Rested<R, P>>, K: Carries<Pass = W>>(
    alloc: Global,
    lead: &Lead<R>,
    mut kits: Vec<K>,
) -> Result<Vec<W>, NoMemory>
    requires count { length kits.items ≡ (lead_layout lead.now).ranks }
    requires kits { (i : ℕ) (k : _) → get_elem? kits.items i ≡ some k → IsIn (W.inner (K.pass k)) lead.now × ((view (W.inner (K.pass k))).rank + i + 1 ≡ length kits.items) }
    ensures carried { IfOk result (λ passes. reverse passes.items ≡ map K.pass kits.items) }
    ensures all { IfOk result (λ passes. AreAll W.inner lead.now passes.items) }
{
    let mut passes = Vec::with_capacity(alloc, kits.len())?;
    while let Some(kit) = kits.pop() {
        let Ok(()) = passes.push(kit.into_pass()) else {
            unreachable!()
        };
    }
    Ok(passes)
}
