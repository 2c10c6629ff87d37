//! A rank's part of the check: each line of its block against the first line of its key.

ghost use Rattle.std.specs.Prelude.{◌≡◌, ◌+◌, ◌-◌, ◌<◌, ◌≤◌, ◌++◌, ℕ, [], true, false, length, map, min, OnOk, IsErrOf};
ghost use Rattle.bcl_phase.specs.Parts.{lead_view};
ghost use Rattle.bcl_map.specs.Parts.{lead_key, pass_view, IsOf};
ghost use Rattle.kmer_text.specs.Nodes.{line_at};
ghost use Rattle.kmer_blocks.specs.Blocks.{begins_at};
ghost use Rattle.kmer_paths.specs.Keys.{conflicts};
ghost use Rattle.kmer_paths.specs.declared.fault.WalkFault.TheVariants as faults;
ghost use Rattle.kmer_walk.specs.Nodes.{nodes_from, nodes_of, starts_from, starts_of};
ghost use Rattle.kmer_walk.specs.Book.{find_of};
ghost use Rattle.kmer_walk.specs.Finds.{Asks, Makes};
ghost use Rattle.kmer_walk.specs.Checks.{AreConsistent, IsConflict, IsReady, AreReady};

use crate::nodes::{Finder, Nodes};
use bcl_map::Start;
use bcl_phase::Kit;
use kmer_blocks::first_of;
use kmer_paths::{NO_NEIGHBOUR, WalkFault};
use kmer_text::{Kmer, Node, node_of};

// Of how many lines the buckets are brought near before the first of them is checked.
const BATCH: u32 = 64;

// A line that is to be checked: its key, its node, and where the path of the key begins.
#[derive(Clone, Copy)]
pub(crate) struct Ready {
    pub(crate) key: Kmer,
    pub(crate) node: Node,
    pub(crate) start: Start,
}

// Reads the lines from a place on, so many, and brings the buckets of their keys near.
fn make_ready(nodes: &Nodes, pass: &Finder, from: u32, count: u32, batch: &mut [Option<Ready>; 64])
    requires of { IsOf pass.now nodes.now.lead.now }
    requires within { from + count ≤ length nodes.now.lines.now }
    requires few { count ≤ 64 }
    ensures ready { AreReady nodes.now.k nodes.now.lines.now (lead_key nodes.now.lead.now) from count batch.new }
{
    prove!(from <= nodes.lines.count());
    for i in 0..count {
        batch[i as usize] = match node_of(nodes.lines, from + i, nodes.k) {
            Some(pair) => Some(Ready {
                key: pair.0,
                node: pair.1,
                start: pass.start(nodes.lead, &pair.0),
            }),
            None => None,
        };
    }
}

// Checks one line, and notes it where it is a start. It never answers `TooLong`.
fn check_line(
    nodes: &Nodes,
    pass: &mut Finder,
    place: u32,
    ready: &Option<Ready>,
    starts: &mut Vec<u32>,
) -> Result<(), WalkFault>
    requires of { IsOf pass.old nodes.now.lead.now }
    requires asks { Asks (lead_view nodes.now.lead.now.lead).start (pass_view pass.old) }
    requires place { place < length nodes.now.lines.now }
    requires ready { IsReady nodes.now.k nodes.now.lines.now (lead_key nodes.now.lead.now) place ready.now }
    ensures consistent { OnOk result (conflicts nodes.now.k nodes.now.lines.now (line_at nodes.now.lines.now place) ≡ false) }
    ensures conflict { (n : ℕ) → IsErrOf result (faults.Conflict n) → (n ≡ place + 1) × (conflicts nodes.now.k nodes.now.lines.now (line_at nodes.now.lines.now place) ≡ true) }
    ensures not_long { IsErrOf result faults.TooLong → ⊥ }
    ensures makes { OnOk result (Makes (lead_key nodes.now.lead.now) (map (find_of nodes.now.k nodes.now.lines.now) (nodes_from nodes.now.lines.now place (place + 1))) (pass_view pass.old) (pass_view pass.new)) }
    ensures starts { OnOk result (starts.new.items ≡ starts.old.items ++ starts_from nodes.now.k nodes.now.lines.now place (place + 1)) }
    ensures asks { OnOk result (Asks (lead_view nodes.now.lead.now.lead).start (pass_view pass.new)) }
    ensures of { OnOk result (IsOf pass.new nodes.now.lead.now) }
{
    let Some(it) = ready else {
        return Ok(());
    };
    let Some(first) = nodes.find(pass, it.start, it.key) else {
        unreachable!()
    };
    if first.back != it.node.back || first.forward != it.node.forward {
        return Err(WalkFault::Conflict(it.node.line));
    }
    if first.back == NO_NEIGHBOUR && first.line == it.node.line {
        starts.push(place)?;
    }
    Ok(())
}

// Checks the lines from a place on, so many, in their order.
fn check_batch(
    nodes: &Nodes,
    pass: &mut Finder,
    from: u32,
    count: u32,
    batch: &[Option<Ready>; 64],
    starts: &mut Vec<u32>,
) -> Result<(), WalkFault>
    requires of { IsOf pass.old nodes.now.lead.now }
    requires asks { Asks (lead_view nodes.now.lead.now.lead).start (pass_view pass.old) }
    requires within { from + count ≤ length nodes.now.lines.now }
    requires few { count ≤ 64 }
    requires ready { AreReady nodes.now.k nodes.now.lines.now (lead_key nodes.now.lead.now) from count batch.now }
    ensures consistent { OnOk result (AreConsistent nodes.now.k nodes.now.lines.now from (from + count)) }
    ensures conflict { (n : ℕ) → IsErrOf result (faults.Conflict n) → IsConflict nodes.now.k nodes.now.lines.now from (from + count) n }
    ensures not_long { IsErrOf result faults.TooLong → ⊥ }
    ensures makes { OnOk result (Makes (lead_key nodes.now.lead.now) (map (find_of nodes.now.k nodes.now.lines.now) (nodes_from nodes.now.lines.now from (from + count))) (pass_view pass.old) (pass_view pass.new)) }
    ensures starts { OnOk result (starts.new.items ≡ starts.old.items ++ starts_from nodes.now.k nodes.now.lines.now from (from + count)) }
    ensures asks { OnOk result (Asks (lead_view nodes.now.lead.now.lead).start (pass_view pass.new)) }
    ensures of { OnOk result (IsOf pass.new nodes.now.lead.now) }
{
    prove!(from <= nodes.lines.count());
    for i in 0..count {
        check_line(nodes, pass, from + i, &batch[i as usize], starts)?;
    }
    Ok(())
}

// Checks the lines from one place up to another, and notes the starts among them.
fn check_lines(
    nodes: &Nodes,
    pass: &mut Finder,
    first: u32,
    end: u32,
    starts: &mut Vec<u32>,
) -> Result<(), WalkFault>
    requires of { IsOf pass.old nodes.now.lead.now }
    requires asks { Asks (lead_view nodes.now.lead.now.lead).start (pass_view pass.old) }
    requires order { first ≤ end }
    requires within { end ≤ length nodes.now.lines.now }
    ensures consistent { OnOk result (AreConsistent nodes.now.k nodes.now.lines.now first end) }
    ensures conflict { (n : ℕ) → IsErrOf result (faults.Conflict n) → IsConflict nodes.now.k nodes.now.lines.now first end n }
    ensures not_long { IsErrOf result faults.TooLong → ⊥ }
    ensures makes { OnOk result (Makes (lead_key nodes.now.lead.now) (map (find_of nodes.now.k nodes.now.lines.now) (nodes_from nodes.now.lines.now first end)) (pass_view pass.old) (pass_view pass.new)) }
    ensures starts { OnOk result (starts.new.items ≡ starts.old.items ++ starts_from nodes.now.k nodes.now.lines.now first end) }
    ensures asks { OnOk result (Asks (lead_view nodes.now.lead.now.lead).start (pass_view pass.new)) }
    ensures of { OnOk result (IsOf pass.new nodes.now.lead.now) }
{
    let mut batch = [None; 64];
    let mut from = first;
    while from < end {
        let count = (end - from).min(BATCH);
        make_ready(nodes, pass, from, count, &mut batch);
        check_batch(nodes, pass, from, count, &batch, starts)?;
        from += count;
    }
    Ok(())
}

// Checks the lines of a rank's block.
fn check_block(
    nodes: &Nodes,
    pass: &mut Finder,
    rank: u32,
    ranks: u32,
    starts: &mut Vec<u32>,
) -> Result<(), WalkFault>
    requires of { IsOf pass.old nodes.now.lead.now }
    requires asks { Asks (lead_view nodes.now.lead.now.lead).start (pass_view pass.old) }
    requires rank { rank < ranks }
    ensures consistent { OnOk result (AreConsistent nodes.now.k nodes.now.lines.now (begins_at rank ranks nodes.now.lines.now) (begins_at (rank + 1) ranks nodes.now.lines.now)) }
    ensures conflict { (n : ℕ) → IsErrOf result (faults.Conflict n) → IsConflict nodes.now.k nodes.now.lines.now (begins_at rank ranks nodes.now.lines.now) (begins_at (rank + 1) ranks nodes.now.lines.now) n }
    ensures not_long { IsErrOf result faults.TooLong → ⊥ }
    ensures makes { OnOk result (Makes (lead_key nodes.now.lead.now) (map (find_of nodes.now.k nodes.now.lines.now) (nodes_of rank ranks nodes.now.lines.now)) (pass_view pass.old) (pass_view pass.new)) }
    ensures starts { OnOk result (starts.new.items ≡ starts.old.items ++ starts_of nodes.now.k rank ranks nodes.now.lines.now) }
    ensures asks { OnOk result (Asks (lead_view nodes.now.lead.now.lead).start (pass_view pass.new)) }
    ensures of { OnOk result (IsOf pass.new nodes.now.lead.now) }
{
    let first = first_of(nodes.lines, rank, ranks);
    let end = first_of(nodes.lines, rank + 1, ranks);
    check_lines(nodes, pass, first, end, starts)
}

// What a rank needs to check its block of lines.
#[derive(Drop)]
pub(crate) struct Checker<'a> {
    pub(crate) nodes: &'a Nodes<'a>,
    pub(crate) ranks: u32,
    pub(crate) pass: Finder,
    // the starts among the lines
    pub(crate) starts: Vec<u32>,
    pub(crate) checked: Result<(), WalkFault>,
}

impl<'a> Kit for Checker<'a> {
    ghost use Rattle.std.specs.Prelude.{◌≡◌, ◌+◌, ◌<◌, ℕ, [], map, OnOk, IsErrOf};
    ghost use Rattle.bcl_phase.specs.Parts.{lead_view};
    ghost use Rattle.bcl_map.specs.Parts.{lead_key, pass_view, IsOf};
    ghost use Rattle.kmer_blocks.specs.Blocks.{begins_at};
    ghost use Rattle.kmer_paths.specs.declared.fault.WalkFault.TheVariants as faults;
    ghost use Rattle.kmer_walk.specs.Nodes.{nodes_of, starts_of};
    ghost use Rattle.kmer_walk.specs.Book.{find_of};
    ghost use Rattle.kmer_walk.specs.Finds.{Asks, Makes};
    ghost use Rattle.kmer_walk.specs.Checks.{AreConsistent, IsConflict};

    ghost ready = { λ c. IsOf c.pass c.nodes.now.lead.now × Asks (lead_view c.nodes.now.lead.now.lead).start (pass_view c.pass) × ((pass_view c.pass).rank < c.ranks) × (c.starts.items ≡ []) };

    ghost step = { λ c d. let lines = c.nodes.now.lines.now in let rank = (pass_view c.pass).rank in
        OnOk d.checked (AreConsistent c.nodes.now.k lines (begins_at rank c.ranks lines) (begins_at (rank + 1) c.ranks lines))
        × ((n : ℕ) → IsErrOf d.checked (faults.Conflict n) → IsConflict c.nodes.now.k lines (begins_at rank c.ranks lines) (begins_at (rank + 1) c.ranks lines) n)
        × (IsErrOf d.checked faults.TooLong → ⊥)
        × OnOk d.checked (Makes (lead_key c.nodes.now.lead.now) (map (find_of c.nodes.now.k lines) (nodes_of rank c.ranks lines)) (pass_view c.pass) (pass_view d.pass))
        × OnOk d.checked (d.starts.items ≡ starts_of c.nodes.now.k rank c.ranks lines)
        × OnOk d.checked (Asks (lead_view c.nodes.now.lead.now.lead).start (pass_view d.pass))
        × OnOk d.checked (IsOf d.pass c.nodes.now.lead.now) };

    fn rank(&self) -> u32 {
        self.pass.rank()
    }

    fn part(&mut self) {
        let rank = self.pass.rank();
        self.checked = check_block(
            self.nodes,
            &mut self.pass,
            rank,
            self.ranks,
            &mut self.starts,
        );
    }
}
