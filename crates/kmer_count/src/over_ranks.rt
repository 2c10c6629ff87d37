//! The count over ranks that share a map.

ghost use Rattle.std.specs.Prelude.{◌≡◌, ◌≤◌, ◌+◌, ◌*◌, ◌^◌, [], length, All, IsTrue, IfOk, Some, None};
ghost use Rattle.std.specs.List.Sorted.{IsPermutation, IsNonDecreasingBy};
ghost use Rattle.kmer_text.specs.Kmers.{IsKmerLength};
ghost use Rattle.kmer_text.specs.Letters.{are_letters};
ghost use Rattle.kmer_text.specs.Windows.{total};
ghost use Rattle.bcl_segment.specs.Places.{places};
ghost use Rattle.bcl_phase.specs.Deals.{BeginsAt};
ghost use Rattle.bcl_map.specs.Map.{owning};
ghost use Rattle.bcl_map.specs.Parts.{lead_key, closed_view};
ghost use Rattle.bcl_buffer.specs.Drains.{shape_in};
ghost use Rattle.kmer_rows.specs.Counts.{AreCounts};
ghost use Rattle.kmer_count.specs.Book.{shape_of, CountBook};
ghost use Rattle.kmer_count.specs.Fills.{AreFilled};

use crate::filling::fill;
use crate::sorting::sort_by_kmer;
use bcl_bloom::FilterHome;
use bcl_buffer::{Buffer, flush};
use bcl_map::{ClosedMap, MapHome, MapLead, MapPass, begun, buckets_for, closed};
use bcl_merge::{Merger, Sum, wrapping_sum};
use bcl_phase::{Gate, Own};
use bcl_segment::Layout;
use bcl_words::NoMemory;
use kmer_text::{Kmer, Lines};
use std::alloc::Global;
use std::marker::Sync;
use std::thread::{Threads, join};

type Lead = MapLead<Kmer, u64, Sum>;

type Pass = MapPass<Own, Kmer, u64, Sum>;

/// What a count is to do: the letters of a k-mer, the ranks, the least count of a k-mer that is answered, and how many
/// windows the lines have.
#[derive(Clone, Copy, Debug)]
pub struct CountPlan {
    pub k: u32,
    pub ranks: u32,
    pub min: u64,
    pub windows: u64,
}

/// What a count answers: the k-mers with their counts in the order of the k-mers, and the map and the filter that the
/// ranks shared, of which a count with the least minimum asks none.
#[derive(Drop)]
pub struct Counted {
    pub sorted: Vec<(Kmer, u64)>,
    pub closed: ClosedMap<Kmer, u64, Sum>,
    pub filter: Option<FilterHome<Kmer>>,
}

// An empty map of this shape, in a phase under Own.
fn empty_map(alloc: Global, shape: Layout) -> Result<(Lead, Vec<Pass>), NoMemory>
    requires ranks { (1 ≤ shape.ranks) × (shape.ranks ≤ 64) }
    requires buckets { 1 ≤ shape.per_rank }
    requires words { shape.ranks * shape.per_rank * 3 ≤ 2 ^ 27 }
    ensures shape { IfOk result (λ r. lead_key r.0 ≡ shape_in 1 shape) }
    ensures count { IfOk result (λ r. length r.1.items ≡ shape.ranks) }
    ensures begins { IfOk result (λ r. BeginsAt (λ p. p.pass) owning [] r.0.lead r.1.items) }
{
    let home = MapHome::new(alloc, shape.ranks, shape.per_rank)?;
    begun(alloc, home)
}

// Buffers that are filled, and the lead and the passes of an empty map in a phase under Own.
type Prepared = (Vec<Buffer<Kmer, u64>>, Lead, Vec<Pass>);

// The buffers that the ranks fill, and a map that is made meanwhile.
fn fill_and_begin<H: Threads + Sync, G: Gate>(
    rt: &H,
    alloc: Global,
    lines: &Lines,
    k: u32,
    shape: Layout,
    gate: &G,
) -> Result<Prepared, NoMemory>
    requires k { IsKmerLength k }
    requires letters { All (λ line. IsTrue (are_letters line)) lines.now }
    requires ranks { (1 ≤ shape.ranks) × (shape.ranks ≤ 64) }
    requires buckets { 1 ≤ shape.per_rank }
    requires words { shape.ranks * shape.per_rank * 3 ≤ 2 ^ 27 }
    requires places { (1 ≤ places shape) × (places shape ≤ 2 ^ 27) }
    ensures filled { IfOk result (λ r. AreFilled k shape lines.now r.0.items) }
    ensures shape { IfOk result (λ r. lead_key r.1 ≡ shape_in 1 shape) }
    ensures count { IfOk result (λ r. length r.2.items ≡ shape.ranks) }
    ensures begins { IfOk result (λ r. BeginsAt (λ p. p.pass) owning [] r.1.lead r.2.items) }
{
    let (filled, begun) = join(
        rt,
        ||
            requires { IsKmerLength k × All (λ line. IsTrue (are_letters line)) lines.now × (1 ≤ shape.ranks) × (1 ≤ places shape) × (places shape ≤ 2 ^ 27) }
            ensures { IfOk result (λ v. AreFilled k shape lines.entry.now v.items) }
        { fill(rt, alloc, lines, k, shape, gate) },
        ||
            requires { (1 ≤ shape.ranks) × (shape.ranks ≤ 64) × (1 ≤ shape.per_rank) × (shape.ranks * shape.per_rank * 3 ≤ 2 ^ 27) }
            ensures { IfOk result (λ r. (lead_key r.0 ≡ shape_in 1 shape) × (length r.1.items ≡ shape.ranks) × BeginsAt (λ p. p.pass) owning [] r.0.lead r.1.items) }
        { empty_map(alloc, shape) },
    );
    let buffers = filled?;
    let (lead, passes) = begun?;
    Ok((buffers, lead, passes))
}

// The map of the k-mers of the lines, each merged by the rank of its home.
fn map_of<H: Threads + Sync, G: Gate>(
    rt: &H,
    alloc: Global,
    lines: &Lines,
    plan: &CountPlan,
    gate: &G,
) -> Result<ClosedMap<Kmer, u64, Sum>, NoMemory>
    requires k { IsKmerLength plan.now.k }
    requires letters { All (λ line. IsTrue (are_letters line)) lines.now }
    requires ranks { (1 ≤ plan.now.ranks) × (plan.now.ranks ≤ 64) }
    requires windows { (plan.now.windows ≡ total plan.now.k lines.now) × (plan.now.windows ≤ 2 ^ 23) }
    ensures book { IfOk result (λ c. CountBook plan.now.k plan.now.ranks lines.now (closed_view c).seen) }
    ensures key { IfOk result (λ c. (closed_view c).key ≡ Some (shape_of plan.now.ranks (total plan.now.k lines.now))) }
{
    let shape = Layout {
        ranks: plan.ranks,
        per_rank: buckets_for(plan.ranks, plan.windows as u32),
    };
    let (buffers, lead, passes) = fill_and_begin(rt, alloc, lines, plan.k, shape, gate)?;
    let sum = Merger::new(|a: u64, b: u64| wrapping_sum(a, b));
    let (passes, _) = flush(rt, alloc, &lead, passes, buffers, &sum, gate)?;
    closed(alloc, lead.end::<Own>(passes))
}

// Pairs in the order of their k-mers.
fn in_order<H: Threads + Sync>(
    rt: &H,
    alloc: Global,
    pairs: &[(Kmer, u64)],
    ranks: u32,
) -> Result<Vec<(Kmer, u64)>, NoMemory>
    ensures moved { IfOk result (λ v. IsPermutation pairs.now v.items) }
    ensures rising { IfOk result (λ v. IsNonDecreasingBy (λ e. e.0) v.items) }
{
    let mut sorted = pairs.to_vec(alloc)?;
    sort_by_kmer(rt, sorted.as_mut_slice(), ranks);
    Ok(sorted)
}

/// Counts the k-mers of lines over ranks that share a map under `Own`: each rank goes through the lines of its block, and
/// each merges the k-mers whose home it is. Neither the counts nor their order depend on the number of ranks.
///
/// It is a superstep that fills buffers, those of the flush, and a sort, which takes all processors where there is more
/// than one rank. It refuses for want of memory alone. Condition: the lines are of letters alone and have `plan.windows`
/// windows of `plan.k` letters, at most 2^23; there are 1 to 64 ranks; the minimum is 1.
pub fn count<H: Threads + Sync, G: Gate>(
    rt: &H,
    alloc: Global,
    lines: &Lines,
    plan: &CountPlan,
    gate: &G,
) -> Result<Counted, NoMemory>
    requires k { IsKmerLength plan.now.k }
    requires letters { All (λ line. IsTrue (are_letters line)) lines.now }
    requires ranks { (1 ≤ plan.now.ranks) × (plan.now.ranks ≤ 64) }
    requires windows { (plan.now.windows ≡ total plan.now.k lines.now) × (plan.now.windows ≤ 2 ^ 23) }
    requires least { plan.now.min ≡ 1 }
    ensures sorted { IfOk result (λ c. AreCounts plan.now.k lines.now c.sorted.items) }
    ensures book { IfOk result (λ c. CountBook plan.now.k plan.now.ranks lines.now (closed_view c.closed).seen) }
    ensures filter { IfOk result (λ c. c.filter ≡ None) }
{
    let closed = map_of(rt, alloc, lines, plan, gate)?;
    let sorted = in_order(rt, alloc, closed.entries(), plan.ranks)?;
    Ok(Counted {
        sorted,
        closed,
        filter: None,
    })
}
