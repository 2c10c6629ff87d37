//! Contigs over ranks that share a map.

ghost use Rattle.std.specs.Prelude.{◌≡◌, ◌<◌, ◌≤◌, ◌+◌, ◌^◌, ℕ, None, Some, IfOk, OnOk, IsErrOf, length, map};
ghost use Rattle.std.specs.Option.{option_map};
ghost use mathlib.Core.Option.{some};
ghost use lib.ListN.{get_elem?};
ghost use Rattle.bcl_phase.specs.Deals.{BeginsAt, AreAll};
ghost use Rattle.bcl_phase.specs.Parts.{lead_view};
ghost use Rattle.bcl_map.specs.Map.{finding};
ghost use Rattle.bcl_map.specs.Parts.{lead_key, pass_view, closed_view};
ghost use Rattle.kmer_text.specs.Kmers.{IsKmerLength};
ghost use Rattle.kmer_text.specs.Nodes.{bad_node};
ghost use Rattle.kmer_paths.specs.Keys.{first_conflict};
ghost use Rattle.kmer_paths.specs.Contigs.{contigs, contig_text};
ghost use Rattle.kmer_paths.specs.declared.fault.WalkFault.TheVariants as faults;
ghost use Rattle.kmer_walk.specs.Book.{ContigBook, shape_of, IsStored};
ghost use Rattle.kmer_walk.specs.Finds.{HasFirsts, ChecksAndWalks};

use crate::checking::checked;
use crate::gathering::gathered;
use crate::nodes::{Finder, Lead, Nodes};
use crate::storing::stored;
use crate::walking::walked;
use bcl_map::{ClosedMap, closed};
use bcl_merge::LeastWords;
use bcl_phase::{Find, Gate};
use kmer_paths::WalkFault;
use kmer_text::{Kmer, Lines, Node};
use std::alloc::Global;
use std::marker::Sync;
use std::thread::Threads;

/// What a walk of contigs answers: the contigs in byte order, each without its line end, and the map that the ranks shared.
#[derive(Drop)]
pub struct Walked {
    pub texts: Vec<Vec<u8>>,
    pub closed: ClosedMap<Kmer, Node, LeastWords>,
}

// The passes of ranks that have checked and walked, and the contigs.
type Found = (Vec<Finder>, Vec<Vec<u8>>);

// Checks all lines and walks from all starts, by a map that has the node of the first line of each key.
fn found<H: Threads + Sync, G: Gate>(
    rt: &H,
    alloc: Global,
    nodes: &Nodes,
    ranks: u32,
    passes: Vec<Finder>,
    gate: &G,
) -> Result<Found, WalkFault>
    requires ranks { (1 ≤ ranks) × (length passes.items ≡ ranks) }
    requires begins { BeginsAt (λ p. p.pass) finding (lead_view nodes.now.lead.now.lead).start nodes.now.lead.now.lead passes.items }
    ensures texts { IfOk result (λ r. map (λ text. text.items) r.1.items ≡ contigs nodes.now.k nodes.now.lines.now) }
    ensures all { IfOk result (λ r. AreAll (λ p. p.pass) nodes.now.lead.now.lead r.0.items) }
    ensures finds { IfOk result (λ r. (i : ℕ) (p q : _) → get_elem? passes.items i ≡ some p → get_elem? r.0.items i ≡ some q → ChecksAndWalks nodes.now.k nodes.now.lines.now (lead_key nodes.now.lead.now) i ranks (pass_view p) (pass_view q)) }
    ensures consistent { OnOk result (first_conflict nodes.now.k nodes.now.lines.now ≡ None) }
    ensures short { OnOk result (length (contig_text nodes.now.k nodes.now.lines.now) ≤ 2 ^ 26) }
    ensures conflict { (n : ℕ) → IsErrOf result (faults.Conflict n) → option_map (λ place. place + 1) (first_conflict nodes.now.k nodes.now.lines.now) ≡ Some n }
    ensures too_long { IsErrOf result faults.TooLong → (first_conflict nodes.now.k nodes.now.lines.now ≡ None) × (2 ^ 26 < length (contig_text nodes.now.k nodes.now.lines.now)) }
{
    let (passes, starts) = checked(rt, alloc, nodes, ranks, passes, gate)?;
    let (passes, parts) = walked(rt, alloc, nodes, ranks, passes, starts, gate)?;
    let texts = gathered(rt, alloc, &parts, ranks)?;
    Ok((passes, texts))
}

/// The contigs of lines of nodes over ranks that share a map under `Own` and then under `Find`. Neither the contigs nor
/// what is refused depends on the number of ranks.
///
/// The ranks fill buffers with the nodes of their blocks, merge them by the least line, check their lines against the first
/// lines of their keys, and walk from the starts of their blocks, each in a superstep; then the contigs are sorted, on all
/// processors where there is more than one rank. `Conflict` names the first line whose extensions differ from those of the
/// first line of its key. `TooLong` comes only where no line does. Condition: each line is a node or empty; there are 1 to
/// 64 ranks.
pub fn contigs<H: Threads + Sync, G: Gate>(
    rt: &H,
    alloc: Global,
    lines: &Lines,
    k: u32,
    ranks: u32,
    gate: &G,
) -> Result<Walked, WalkFault>
    requires k { IsKmerLength k }
    requires good { bad_node k lines.now ≡ None }
    requires ranks { (1 ≤ ranks) × (ranks ≤ 64) }
    ensures texts { IfOk result (λ w. map (λ text. text.items) w.texts.items ≡ contigs k lines.now) }
    ensures book { IfOk result (λ w. ContigBook k lines.now ranks (closed_view w.closed).seen) }
    ensures consistent { OnOk result (first_conflict k lines.now ≡ None) }
    ensures short { OnOk result (length (contig_text k lines.now) ≤ 2 ^ 26) }
    ensures conflict { (n : ℕ) → IsErrOf result (faults.Conflict n) → option_map (λ place. place + 1) (first_conflict k lines.now) ≡ Some n }
    ensures too_long { IsErrOf result faults.TooLong → (first_conflict k lines.now ≡ None) × (2 ^ 26 < length (contig_text k lines.now)) }
{
    let (lead, passes) = stored(rt, alloc, lines, k, ranks, gate)?;
    let nodes = Nodes::new(&lead, lines, k);
    let (passes, texts) = found(rt, alloc, &nodes, ranks, passes, gate)?;
    let closed = closed(alloc, lead.end::<Find>(passes))?;
    Ok(Walked { texts, closed })
}
