//! Inserts.

ghost use Rattle.std.specs.Prelude.{◌≡◌, All};
ghost use Rattle.bcl_map.specs.Calls.{IsMine};
ghost use Rattle.bcl_phase.specs.Deals.{view, IsIn};

use bcl_map::{Inserted, MapLead, MapPass};
use bcl_merge::Sum;
use bcl_phase::Own;
use bcl_words::Object;

/// Inserts pairs, and answers how many of the keys were new.
pub fn insert_all<K: Object>(
    lead: &MapLead<K, u64, Sum>,
    pass: &mut MapPass<Own, K, u64, Sum>,
    pairs: &[(K, u64)],
) -> u64
    requires of { IsIn pass.old.pass lead.now.lead }
    requires mine { All (λ pair. IsMine (view pass.old.pass) (K.words pair.0)) pairs.now }
    ensures of { IsIn pass.new.pass lead.now.lead }
    ensures rank { (view pass.new.pass).rank ≡ (view pass.old.pass).rank }
{
    let mut new = 0u64;
    for pair in pairs {
        if pass.insert(lead, &pair.0, &pair.1) == Inserted::New {
            new = new.wrapping_add(1);
        }
    }
    new
}
