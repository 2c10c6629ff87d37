//! The nodes of all lines, stored in a map that ranks share.

ghost use Rattle.std.specs.Prelude.{◌≡◌, ◌≤◌, ◌*◌, ◌^◌, [], None, length, IfOk};
ghost use Rattle.kmer_text.specs.Kmers.{IsKmerLength};
ghost use Rattle.kmer_text.specs.Nodes.{bad_node};
ghost use Rattle.bcl_segment.specs.Places.{places};
ghost use Rattle.bcl_phase.specs.Deals.{BeginsAt};
ghost use Rattle.bcl_phase.specs.Parts.{lead_view};
ghost use Rattle.bcl_map.specs.Map.{owning, finding};
ghost use Rattle.bcl_map.specs.Parts.{lead_key};
ghost use Rattle.bcl_buffer.specs.Drains.{shape_in};
ghost use Rattle.kmer_walk.specs.Book.{shape_of, IsStored};
ghost use Rattle.kmer_walk.specs.Fills.{AreFilled};
ghost use Rattle.kmer_walk.specs.Finds.{HasFirsts};

use crate::filling::fill;
use crate::nodes::{Finder, Lead};
use bcl_buffer::{Buffer, flush};
use bcl_map::{MapHome, MapPass, begun, buckets_for, turned};
use bcl_merge::{LeastWords, Merger, least_words};
use bcl_phase::{Find, Gate, Own};
use bcl_segment::Layout;
use bcl_words::NoMemory;
use kmer_text::{Kmer, Lines, Node};
use std::alloc::Global;
use std::marker::Sync;
use std::thread::{Threads, join};

type Storer = MapPass<Own, Kmer, Node, LeastWords>;

// An empty map of this shape, in a phase under Own.
fn empty_map(alloc: Global, shape: Layout) -> Result<(Lead, Vec<Storer>), NoMemory>
    requires ranks { (1 ≤ shape.ranks) × (shape.ranks ≤ 64) }
    requires buckets { 1 ≤ shape.per_rank }
    requires words { shape.ranks * shape.per_rank * 4 ≤ 2 ^ 27 }
    ensures shape { IfOk result (λ r. lead_key r.0 ≡ shape_in 1 shape) }
    ensures count { IfOk result (λ r. length r.1.items ≡ shape.ranks) }
    ensures begins { IfOk result (λ r. BeginsAt (λ p. p.pass) owning [] r.0.lead r.1.items) }
{
    let home = MapHome::new(alloc, shape.ranks, shape.per_rank)?;
    begun(alloc, home)
}

// Buffers that are filled, and the lead and the passes of an empty map in a phase under Own.
type Prepared = (Vec<Buffer<Kmer, Node>>, Lead, Vec<Storer>);

// The buffers that the ranks fill, and a map that is made meanwhile.
fn fill_and_begin<H: Threads + Sync, G: Gate>(
    rt: &H,
    alloc: Global,
    lines: &Lines,
    k: u32,
    shape: Layout,
    gate: &G,
) -> Result<Prepared, NoMemory>
    requires k { IsKmerLength k }
    requires good { bad_node k lines.now ≡ None }
    requires ranks { (1 ≤ shape.ranks) × (shape.ranks ≤ 64) }
    requires buckets { 1 ≤ shape.per_rank }
    requires words { shape.ranks * shape.per_rank * 4 ≤ 2 ^ 27 }
    requires places { (1 ≤ places shape) × (places shape ≤ 2 ^ 27) }
    ensures filled { IfOk result (λ r. AreFilled k lines.now shape r.0.items) }
    ensures shape { IfOk result (λ r. lead_key r.1 ≡ shape_in 1 shape) }
    ensures count { IfOk result (λ r. length r.2.items ≡ shape.ranks) }
    ensures begins { IfOk result (λ r. BeginsAt (λ p. p.pass) owning [] r.1.lead r.2.items) }
{
    let (filled, begun) = join(
        rt,
        ||
            requires { IsKmerLength k × (bad_node k lines.now ≡ None) × (1 ≤ shape.ranks) × (1 ≤ places shape) × (places shape ≤ 2 ^ 27) }
            ensures { IfOk result (λ v. AreFilled k lines.entry.now shape v.items) }
        { fill(rt, alloc, lines, k, shape, gate) },
        ||
            requires { (1 ≤ shape.ranks) × (shape.ranks ≤ 64) × (1 ≤ shape.per_rank) × (shape.ranks * shape.per_rank * 4 ≤ 2 ^ 27) }
            ensures { IfOk result (λ r. (lead_key r.0 ≡ shape_in 1 shape) × (length r.1.items ≡ shape.ranks) × BeginsAt (λ p. p.pass) owning [] r.0.lead r.1.items) }
        { empty_map(alloc, shape) },
    );
    let buffers = filled?;
    let (lead, passes) = begun?;
    Ok((buffers, lead, passes))
}

/// The map of the nodes of all lines, each merged by the rank of its key's home, in a phase under Find: the lead, and a pass
/// for each rank.
pub(crate) fn stored<H: Threads + Sync, G: Gate>(
    rt: &H,
    alloc: Global,
    lines: &Lines,
    k: u32,
    ranks: u32,
    gate: &G,
) -> Result<(Lead, Vec<Finder>), NoMemory>
    requires k { IsKmerLength k }
    requires good { bad_node k lines.now ≡ None }
    requires ranks { (1 ≤ ranks) × (ranks ≤ 64) }
    ensures shape { IfOk result (λ r. lead_key r.0 ≡ shape_of ranks lines.now) }
    ensures count { IfOk result (λ r. length r.1.items ≡ ranks) }
    ensures begins { IfOk result (λ r. BeginsAt (λ p. p.pass) finding (lead_view r.0.lead).start r.0.lead r.1.items) }
    ensures stored { IfOk result (λ r. IsStored k lines.now ranks (lead_view r.0.lead).start) }
    ensures firsts { IfOk result (λ r. HasFirsts k lines.now (lead_key r.0) (lead_view r.0.lead).start) }
{
    let shape = Layout {
        ranks,
        per_rank: buckets_for(ranks, lines.count()),
    };
    let (buffers, lead, passes) = fill_and_begin(rt, alloc, lines, k, shape, gate)?;
    let least = Merger::new(|a: Node, b: Node| least_words(a, b));
    let (passes, _) = flush(rt, alloc, &lead, passes, buffers, &least, gate)?;
    turned::<Own, Find, Kmer, Node, LeastWords>(alloc, lead, passes)
}
