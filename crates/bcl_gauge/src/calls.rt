//! How a gauge is opened and read, and how its phase ends.

ghost use Rattle.std.specs.Prelude.{◌≡◌, ◌+◌, ◌≤◌, [], IfOk, IfErr};
ghost use Rattle.bcl_phase.specs.Parts.{home_view, home_key, lead_key, IsSameHome};
ghost use Rattle.bcl_phase.specs.Deals.{AreAll, Ends, Turns};
ghost use Rattle.bcl_gauge.specs.Gauge.{number};

use crate::gauge::{Gauge, Shape};
use crate::pass::GaugePass;
use bcl_phase::{Grants, Home, Lead, Promise, Refused};
use bcl_segment::{Layout, Spot};
use bcl_words::NoMemory;
use std::alloc::Global;
use std::marker::Brand;

/// A gauge at the greatest number.
pub fn open(alloc: Global, ranks: u32, floor: u64) -> Result<Home<Gauge>, NoMemory>
    requires ranks { (1 ≤ ranks) × (ranks ≤ 64) }
    ensures empty { IfOk result (λ h. (home_view h).seen ≡ []) }
    ensures key { IfOk result (λ h. home_key h ≡ record { ranks = ranks; floor = floor }) }
{
    let layout = Layout { ranks, per_rank: 0 };
    let words = vec![in alloc; u64::MAX; 1]?;
    Home::new(alloc, layout, 1, words, &Shape { ranks, floor })
}

/// The number, as the whole history left it. One get.
pub fn read(home: &mut Home<Gauge>) -> u64
    ensures value { result ≡ number (home_key home.old) (home_view home.old).seen }
    ensures seen { (home_view home.new).seen ≡ (home_view home.old).seen }
    ensures same { IsSameHome home.old home.new }
    ensures cost { (home_view home.new).gets ≡ (home_view home.old).gets + 1 }
{
    home.get::<Brand, ()>(Spot::Head(0), &())
}

/// Ends the phase, and consumes its passes. The word is lifted to the floor if it fell below.
pub fn end<P: Promise>(lead: Lead<Gauge>, passes: Vec<GaugePass<P>>, floor: u64) -> Home<Gauge>
where
    Gauge: Grants<P>,
    requires all { AreAll (λ p. p.pass) lead passes.items }
    requires floor { floor ≡ (lead_key lead).floor }
    ensures ends { Ends (λ p. p.pass) P.CODE lead passes.items result }
{
    let mut loose = lead.end_loose::<P, GaugePass<P>>(passes);
    if loose.get(Spot::Head(0)) < floor {
        loose.put(Spot::Head(0), floor);
    }
    let mut home = loose.mend();
    home.forget();
    home
}

/// Ends the phase and begins the next. It is `end` and then `begin`.
pub fn turn<P: Promise, Q: Promise>(
    lead: Lead<Gauge>,
    alloc: Global,
    passes: Vec<GaugePass<P>>,
    floor: u64,
) -> Result<(Lead<Gauge>, Vec<GaugePass<Q>>), Refused<Home<Gauge>>>
where
    Gauge: Grants<P> + Grants<Q>,
    requires all { AreAll (λ p. p.pass) lead passes.items }
    requires floor { floor ≡ (lead_key lead).floor }
    ensures turns { IfOk result (λ r. Turns (λ p. p.pass) (λ p. p.pass) P.CODE Q.CODE lead passes.items r.0 r.1.items) }
    ensures refused { IfErr result (λ e. Ends (λ p. p.pass) P.CODE lead passes.items e.home) }
{
    end::<P>(lead, passes, floor).begin::<Q, GaugePass<Q>>(alloc)
}
