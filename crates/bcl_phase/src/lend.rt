//! The last of a list of passes, lent.

ghost use Rattle.std.specs.Prelude.{◌≡◌, List, [], ◌∷◌, ◌++◌, length, IfSome, IfNone};
ghost use denote.Ref.{MutBor};
ghost use Rattle.bcl_phase.specs.Deals.{view, IsIn, AreOf};

use crate::{Lead, Phased, Promise, Rested, Wraps};

/// Lends the last of a list of passes to a function, and answers what that answers. `None` where there is no pass.
///
/// Condition: the passes are of the lead, rank i at place i; the function may be called with a pass of the lead, and
/// leaves it one of the same rank.
pub fn with_last<R: Phased, P: Promise, W: Wraps<Inner = Rested<R, P>>, A, F: FnOnce(&mut W) -> A>(
    lead: &Lead<R>,
    passes: &mut Vec<W>,
    f: F,
) -> Option<A>
    requires of { AreOf W.inner lead.now passes.old.items }
    requires ready { (w : MutBor W) → IsIn (W.inner w.now) lead.now → F.pre f w }
    requires keeps { (w v : MutBor W) (a : A) → IsIn (W.inner w.now) lead.now → F.post f w a v → IsIn (W.inner v.now) lead.now × ((view (W.inner v.now)).rank ≡ (view (W.inner w.now)).rank) }
    ensures lent { IfSome result (λ a. (ws : List W) × (w : MutBor W) × (v : MutBor W) × (passes.old.items ≡ ws ++ w.now ∷ []) × (passes.new.items ≡ ws ++ v.now ∷ []) × F.post f w a v) }
    ensures none { IfNone result ((passes.old.items ≡ []) × (passes.new.items ≡ [])) }
    ensures of { AreOf W.inner lead.now passes.new.items }
    ensures count { length passes.new.items ≡ length passes.old.items }
{
    let Some(mut pass) = passes.pop() else {
        return None;
    };
    let answer = f(&mut pass);
    let Ok(()) = passes.push(pass) else {
        unreachable!()
    };
    Some(answer)
}
