//! The superstep that checks: each rank goes through its block of lines.

ghost use Rattle.std.specs.Prelude.{◌≡◌, ◌<◌, ◌≤◌, ◌+◌, ℕ, [], None, Some, All, IsOk, IfOk, OnOk, IsErrOf, length, map};
ghost use Rattle.std.specs.Option.{option_map};
ghost use mathlib.Core.Option.{some};
ghost use lib.ListN.{get_elem?};
ghost use Rattle.bcl_phase.specs.Deals.{AreAll};
ghost use Rattle.bcl_phase.specs.Parts.{lead_view};
ghost use Rattle.bcl_map.specs.Parts.{lead_key, pass_view};
ghost use Rattle.kmer_paths.specs.Keys.{first_conflict};
ghost use Rattle.kmer_paths.specs.declared.fault.WalkFault.TheVariants as faults;
ghost use Rattle.kmer_walk.specs.Nodes.{nodes_of, starts_of};
ghost use Rattle.kmer_walk.specs.Book.{find_of};
ghost use Rattle.kmer_walk.specs.Finds.{Asks, Makes};
ghost use Rattle.kmer_walk.specs.Faults.{FirstFault};

use crate::checker::Checker;
use crate::nodes::{Finder, Nodes};
use bcl_phase::{Gate, superstep_all};
use bcl_words::NoMemory;
use kmer_paths::WalkFault;
use std::alloc::Global;
use std::marker::Sync;
use std::thread::Threads;

// A checker for each pass.
fn checkers<'a>(
    alloc: Global,
    nodes: &'a Nodes<'a>,
    ranks: u32,
    passes: Vec<Finder>,
) -> Result<Vec<Checker<'a>>, NoMemory>
    ensures passes { IfOk result (λ kits. map (λ c. c.pass) kits.items ≡ passes.items) }
    ensures made { IfOk result (λ kits. All (λ c. (c.nodes.now ≡ nodes.entry.now) × (c.ranks ≡ ranks) × (c.starts.items ≡ [])) kits.items) }
{
    let mut kits = Vec::with_capacity(alloc, passes.len())?;
    for pass in passes {
        kits.push(Checker {
            nodes,
            ranks,
            pass,
            starts: Vec::new(alloc),
            checked: Ok(()),
        })?;
    }
    Ok(kits)
}

// The passes of checkers, and the starts that each has noted, or the first fault that one met.
fn checks_of(alloc: Global, kits: Vec<Checker>) -> Result<(Vec<Finder>, Vec<Vec<u32>>), WalkFault>
    ensures checked { IfOk result (λ _. All (λ c. IsOk c.checked) kits.entry.items) }
    ensures passes { IfOk result (λ r. r.0.items ≡ map (λ c. c.pass) kits.entry.items) }
    ensures starts { IfOk result (λ r. r.1.items ≡ map (λ c. c.starts) kits.entry.items) }
    ensures conflict { (n : ℕ) → IsErrOf result (faults.Conflict n) → FirstFault (λ c. c.checked) (faults.Conflict n) kits.entry.items }
    ensures too_long { IsErrOf result faults.TooLong → FirstFault (λ c. c.checked) faults.TooLong kits.entry.items }
{
    let mut passes = Vec::with_capacity(alloc, kits.len())?;
    let mut starts = Vec::with_capacity(alloc, kits.len())?;
    for kit in kits {
        kit.checked?;
        passes.push(kit.pass)?;
        starts.push(kit.starts)?;
    }
    Ok((passes, starts))
}

/// Checks all lines, each rank those of its block. It answers the passes, and the starts of each rank's block. Where lines
/// conflict with the first lines of their keys it names the first that does, unless memory ran out. It never answers
/// `TooLong`.
pub(crate) fn checked<H: Threads + Sync, G: Gate>(
    rt: &H,
    alloc: Global,
    nodes: &Nodes,
    ranks: u32,
    passes: Vec<Finder>,
    gate: &G,
) -> Result<(Vec<Finder>, Vec<Vec<u32>>), WalkFault>
    requires ranks { (1 ≤ ranks) × (length passes.items ≡ ranks) }
    requires all { AreAll (λ p. p.pass) nodes.now.lead.now.lead passes.items }
    requires asks { (i : ℕ) (p : _) → get_elem? passes.items i ≡ some p → Asks (lead_view nodes.now.lead.now.lead).start (pass_view p) }
    ensures consistent { OnOk result (first_conflict nodes.now.k nodes.now.lines.now ≡ None) }
    ensures conflict { (n : ℕ) → IsErrOf result (faults.Conflict n) → option_map (λ place. place + 1) (first_conflict nodes.now.k nodes.now.lines.now) ≡ Some n }
    ensures not_long { IsErrOf result faults.TooLong → ⊥ }
    ensures all { IfOk result (λ r. AreAll (λ p. p.pass) nodes.now.lead.now.lead r.0.items) }
    ensures asks { IfOk result (λ r. (i : ℕ) (q : _) → get_elem? r.0.items i ≡ some q → Asks (lead_view nodes.now.lead.now.lead).start (pass_view q)) }
    ensures makes { IfOk result (λ r. (i : ℕ) (p q : _) → get_elem? passes.items i ≡ some p → get_elem? r.0.items i ≡ some q → Makes (lead_key nodes.now.lead.now) (map (find_of nodes.now.k nodes.now.lines.now) (nodes_of i ranks nodes.now.lines.now)) (pass_view p) (pass_view q)) }
    ensures count { IfOk result (λ r. length r.1.items ≡ ranks) }
    ensures starts { IfOk result (λ r. (i : ℕ) (s : _) → get_elem? r.1.items i ≡ some s → s.items ≡ starts_of nodes.now.k i ranks nodes.now.lines.now) }
{
    let mut kits = checkers(alloc, nodes, ranks, passes)?;
    superstep_all(rt, &mut kits, gate);
    checks_of(alloc, kits)
}
