//! Merges, by the sum.

ghost use Rattle.std.specs.Prelude.{◌≡◌, All};
ghost use Rattle.bcl_words.specs.Merges.{AnswersLaw};
ghost use Rattle.bcl_map.specs.Calls.{IsMine};
ghost use Rattle.bcl_phase.specs.Deals.{view, IsIn};

use bcl_map::{Inserted, MapLead, MapPass};
use bcl_merge::{Merger, Sum};
use bcl_phase::Own;
use bcl_words::{MergeLaw, Object};
use std::marker::Sync;

/// Merges pairs, and answers how many of the keys were new.
pub fn merge_all<K: Object, F: Fn(u64, u64) -> u64 + Sync>(
    lead: &MapLead<K, u64, Sum>,
    pass: &mut MapPass<Own, K, u64, Sum>,
    pairs: &[(K, u64)],
    sum: &Merger<u64, Sum, F>,
) -> u64
    requires of { IsIn pass.old.pass lead.now.lead }
    requires mine { All (λ pair. IsMine (view pass.old.pass) (K.words pair.0)) pairs.now }
    requires answers { AnswersLaw ⟦<u64 as Object>⟧.passes ⟦<u64 as Object>⟧.words ⟦<Sum as MergeLaw<u64>>⟧.op (F.pre sum.now) (F.post sum.now) }
    ensures of { IsIn pass.new.pass lead.now.lead }
    ensures rank { (view pass.new.pass).rank ≡ (view pass.old.pass).rank }
{
    let mut new = 0u64;
    for pair in pairs {
        if pass.merge(lead, &pair.0, &pair.1, sum) == Inserted::New {
            new = new.wrapping_add(1);
        }
    }
    new
}
