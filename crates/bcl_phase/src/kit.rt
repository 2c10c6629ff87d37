//! Supersteps: every rank does its part, side by side.

ghost use Rattle.std.specs.Prelude.{ℕ, All, length};
ghost use Rattle.std.specs.List.{AllZip};
ghost use Rattle.std.specs.Thread.{IsSend, IsSync};

use crate::Gate;
use std::marker::{Send, Sync};
use std::thread::{Threads, join_mut};

/// All that one rank needs in a superstep, as its passes, its input and room for what it finds.
pub trait Kit: Send {
    // what `part` needs of the kit
    ghost ready: { Self → Type 0 };

    // what `part` makes of a kit
    ghost step: { Self → Self → Type 0 };

    /// The rank, as the gate is told it.
    fn rank(&self) -> u32;

    /// Does the rank's part. It runs beside the parts of other ranks, and returns.
    fn part(&mut self)
        requires ready { ready self.old }
        ensures step { step self.old self.new };
}

/// One superstep: each kit enters the gate and then does its part, once (Brock, Buluç, Yelick, ICPP 2019, for the ranks
/// of a parallel run).
///
/// The parts run in threads of their own, as far as threads can be made, and all have returned when it returns. It
/// takes no memory of its own and can't be refused. Condition: each kit is ready.
pub fn superstep<T: Kit, G: Gate, H: Threads + Sync>(rt: &H, kits: &mut [T], gate: &G)
    requires ready { All T.ready kits.old }
    ensures steps { AllZip T.step kits.old kits.new }
{
    halves(rt, gate, kits);
}

/// One superstep, as [`superstep`], of kits in a list.
pub fn superstep_all<T: Kit, G: Gate, H: Threads + Sync>(rt: &H, kits: &mut Vec<T>, gate: &G)
    requires ready { All T.ready kits.old.items }
    ensures steps { AllZip T.step kits.old.items kits.new.items }
{
    superstep(rt, kits.as_mut_slice(), gate);
}

// The two halves run side by side.
#[tactic(auto, using(crate::proofs::Zips::halves_steps))]
fn halves<T: Kit, G: Gate, H: Threads + Sync>(rt: &H, gate: &G, kits: &mut [T])
    requires ready { All T.ready kits.old }
    ensures steps { AllZip T.step kits.old kits.new }
{
    if kits.is_empty() {
        return;
    }
    if kits.len() == 1 {
        one(gate, &mut kits[0]);
        return;
    }
    let (front, back) = kits.split_at_mut(kits.len() / 2);
    join_mut(
        rt,
        &mut ||
            requires { IsSync H.row × IsSync G.row × IsSend T.row × All T.ready front.now }
            ensures { AllZip T.step front.entry.now front.exit.now }
        { halves(rt, gate, front) },
        &mut ||
            requires { IsSync H.row × IsSync G.row × IsSend T.row × All T.ready back.now }
            ensures { AllZip T.step back.entry.now back.exit.now }
        { halves(rt, gate, back) },
    );
}

fn one<T: Kit, G: Gate>(gate: &G, kit: &mut T)
    requires ready { T.ready kit.old }
    ensures step { T.step kit.old kit.new }
{
    gate.enter(kit.rank());
    kit.part();
}
