//! The superstep that walks: each rank walks from the starts of its block.

ghost use Rattle.std.specs.Prelude.{◌≡◌, ◌<◌, ◌≤◌, ◌^◌, ℕ, [], All, IsOk, IfOk, IsErrOf, length, map};
ghost use mathlib.Core.Option.{some};
ghost use lib.ListN.{get_elem?};
ghost use Rattle.bcl_phase.specs.Deals.{AreAll};
ghost use Rattle.bcl_phase.specs.Parts.{lead_view};
ghost use Rattle.bcl_map.specs.Parts.{lead_key, pass_view};
ghost use Rattle.kmer_paths.specs.Contigs.{starts as all_starts, contig, text_of};
ghost use Rattle.kmer_paths.specs.declared.fault.WalkFault.TheVariants as faults;
ghost use Rattle.kmer_walk.specs.Nodes.{starts_of};
ghost use Rattle.kmer_walk.specs.Finds.{Asks};
ghost use Rattle.kmer_walk.specs.Texts.{AreTexts, MakesWalks};
ghost use Rattle.kmer_walk.specs.Faults.{FirstFault};

use crate::nodes::{Finder, Nodes};
use crate::walker::{Texts, Walker};
use bcl_phase::{Gate, superstep_all};
use bcl_words::NoMemory;
use kmer_paths::WalkFault;
use std::alloc::Global;
use std::marker::Sync;
use std::thread::Threads;

// A walker for each pass, with the starts of its rank's block.
fn walkers<'a>(
    alloc: Global,
    nodes: &'a Nodes<'a>,
    passes: Vec<Finder>,
    starts: Vec<Vec<u32>>,
) -> Result<Vec<Walker<'a>>, NoMemory>
    requires same { length passes.items ≡ length starts.items }
    ensures passes { IfOk result (λ kits. map (λ w. w.pass) kits.items ≡ passes.items) }
    ensures starts { IfOk result (λ kits. map (λ w. w.starts) kits.items ≡ starts.items) }
    ensures made { IfOk result (λ kits. All (λ w. (w.nodes.now ≡ nodes.entry.now) × (w.texts.bytes.items ≡ []) × (w.texts.ends.items ≡ [])) kits.items) }
{
    let mut kits = Vec::with_capacity(alloc, passes.len())?;
    let mut starts = starts.into_iter();
    for pass in passes {
        let Some(own) = starts.next() else {
            unreachable!()
        };
        kits.push(Walker {
            alloc,
            nodes,
            pass,
            starts: own,
            texts: Texts {
                bytes: Vec::new(alloc),
                ends: Vec::new(alloc),
            },
            walked: Ok(()),
        })?;
    }
    Ok(kits)
}

// The passes of walkers and the texts that each has, or the first fault that one met.
fn walks_of(alloc: Global, kits: Vec<Walker>) -> Result<(Vec<Finder>, Vec<Texts>), WalkFault>
    ensures walked { IfOk result (λ _. All (λ w. IsOk w.walked) kits.entry.items) }
    ensures passes { IfOk result (λ r. r.0.items ≡ map (λ w. w.pass) kits.entry.items) }
    ensures texts { IfOk result (λ r. r.1.items ≡ map (λ w. w.texts) kits.entry.items) }
    ensures conflict { (n : ℕ) → IsErrOf result (faults.Conflict n) → FirstFault (λ w. w.walked) (faults.Conflict n) kits.entry.items }
    ensures too_long { IsErrOf result faults.TooLong → FirstFault (λ w. w.walked) faults.TooLong kits.entry.items }
{
    let mut passes = Vec::with_capacity(alloc, kits.len())?;
    let mut texts = Vec::with_capacity(alloc, kits.len())?;
    for kit in kits {
        kit.walked?;
        passes.push(kit.pass)?;
        texts.push(kit.texts)?;
    }
    Ok((passes, texts))
}

/// Walks from all starts, each rank from those of its block. It answers the passes and the contigs of each rank's starts.
/// It answers `TooLong` only where the contigs of one rank alone are too long, and never `Conflict`.
pub(crate) fn walked<H: Threads + Sync, G: Gate>(
    rt: &H,
    alloc: Global,
    nodes: &Nodes,
    ranks: u32,
    passes: Vec<Finder>,
    starts: Vec<Vec<u32>>,
    gate: &G,
) -> Result<(Vec<Finder>, Vec<Texts>), WalkFault>
    requires ranks { (1 ≤ ranks) × (length passes.items ≡ ranks) × (length starts.items ≡ ranks) }
    requires all { AreAll (λ p. p.pass) nodes.now.lead.now.lead passes.items }
    requires asks { (i : ℕ) (p : _) → get_elem? passes.items i ≡ some p → Asks (lead_view nodes.now.lead.now.lead).start (pass_view p) }
    requires starts { (i : ℕ) (s : _) → get_elem? starts.items i ≡ some s → s.items ≡ starts_of nodes.now.k i ranks nodes.now.lines.now }
    ensures too_long { IsErrOf result faults.TooLong → 2 ^ 26 < length (text_of (map (contig nodes.now.k nodes.now.lines.now) (all_starts nodes.now.k nodes.now.lines.now))) }
    ensures no_conflict { (n : ℕ) → IsErrOf result (faults.Conflict n) → ⊥ }
    ensures all { IfOk result (λ r. AreAll (λ p. p.pass) nodes.now.lead.now.lead r.0.items) }
    ensures walks { IfOk result (λ r. (i : ℕ) (p q : _) → get_elem? passes.items i ≡ some p → get_elem? r.0.items i ≡ some q → MakesWalks nodes.now.k nodes.now.lines.now (lead_key nodes.now.lead.now) (starts_of nodes.now.k i ranks nodes.now.lines.now) (pass_view p) (pass_view q)) }
    ensures count { IfOk result (λ r. length r.1.items ≡ ranks) }
    ensures texts { IfOk result (λ r. (i : ℕ) (t : _) → get_elem? r.1.items i ≡ some t → AreTexts (map (contig nodes.now.k nodes.now.lines.now) (starts_of nodes.now.k i ranks nodes.now.lines.now)) t.bytes.items t.ends.items) }
{
    let mut kits = walkers(alloc, nodes, passes, starts)?;
    superstep_all(rt, &mut kits, gate);
    walks_of(alloc, kits)
}
