ghost use Rattle.std.specs.Prelude.{◌≡◌, length};
ghost use Rattle.bcl_phase.specs.Deals.{view, IsIn, AreOf};

use crate::{Gauge, GaugePass, end, open, read};
use bcl_phase::{Any, Lead, with_last};
use bcl_words::NoMemory;
use std::test::Fail;

// The last rank lowers the number.
fn last_lowers(lead: &Lead<Gauge>, passes: &mut Vec<GaugePass<Any>>, n: u64)
    requires of { AreOf (λ p. p.pass) lead.now passes.old.items }
    ensures of { AreOf (λ p. p.pass) lead.now passes.new.items }
    ensures all { length passes.new.items ≡ length passes.old.items }
{
    with_last(
        lead,
        passes,
        |pass: &mut GaugePass<Any>|
            requires { IsIn pass.old.pass lead.now }
            ensures { IsIn pass.new.pass lead.entry.now × ((view pass.new.pass).rank ≡ (view pass.old.pass).rank) }
        { pass.lower(lead, n) },
    );
}

#[test]
fn a_number_below_the_floor_is_lifted(rt: HostRuntime) -> Result<(), Fail> {
    let home = open(rt.alloc(), 2, 5)?;
    let Ok((lead, mut passes)) = home.begin::<Any, GaugePass<Any>>(rt.alloc()) else {
        return Err(NoMemory.into());
    };
    last_lowers(&lead, &mut passes, 8);
    let mut home = end(lead, passes, 5);
    assert_eq!(rt; read(&mut home), 8);
    let Ok((lead, mut passes)) = home.begin::<Any, GaugePass<Any>>(rt.alloc()) else {
        return Err(NoMemory.into());
    };
    last_lowers(&lead, &mut passes, 3);
    let mut home = end(lead, passes, 5);
    assert_eq!(rt; read(&mut home), 5);
    Ok(())
}
