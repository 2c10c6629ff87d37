//! The ranks of a run, and its book.

ghost use Rattle.std.specs.Prelude.{◌≤◌};

use super::{Faults, NO_FAULTS, NODES, NODES_TEXT, SAMPLE, SAMPLE_TEXT, ran, ran_past};
use crate::Book;
use bcl_phase::Gate;
use kmer_text::{Kmer, Node};
use std::sync::atomic::{AtomicU64, Ordering};
use std::test::Fail;
use std::thread;

/// Holds each of the ranks 0 and 1 in each superstep until the other has entered as often, and counts how many of the two
/// saw the other.
#[derive(Drop)]
struct Meeting {
    zero: AtomicU64,
    one: AtomicU64,
    met: AtomicU64,
}

impl Meeting {
    fn new() -> Self {
        Meeting {
            zero: AtomicU64::new(0),
            one: AtomicU64::new(0),
            met: AtomicU64::new(0),
        }
    }

    fn wait_for(&self, mine: &AtomicU64, other: &AtomicU64) {
        let before = mine.fetch_add(1, Ordering::SeqCst);
        for _ in 0..100_000_000u64 {
            if other.load(Ordering::SeqCst) > before {
                self.met.fetch_add(1, Ordering::SeqCst);
                return;
            }
        }
    }
}

impl Gate for Meeting {
    fn enter(&self, rank: u32) {
        if rank == 0 {
            self.wait_for(&self.zero, &self.one);
        } else if rank == 1 {
            self.wait_for(&self.one, &self.zero);
        }
    }
}

/// The ranks run in threads of their own: in each superstep both are inside at one time.
#[test]
fn ranks_meet_in_each_superstep(rt: HostRuntime) -> Result<(), Fail> {
    // One superstep fills the buffers, and one or more empty them. Contigs have one more for the checks and one for the walks.
    let cases = [
        ("count 3 --ranks 2", SAMPLE, SAMPLE_TEXT, 2),
        ("contigs 3 --ranks 2", NODES, NODES_TEXT, 4),
    ];
    for (line, input, text, least) in cases {
        let gate = Meeting::new();
        let ran = ran_past(&rt, line, input, NO_FAULTS, &gate)?;
        assert_eq!(rt; ran.status, 0, "{line}");
        assert_eq!(rt; ran.written.as_slice(), text, "{line}");
        let entered = gate.zero.load(Ordering::SeqCst);
        assert!(rt; entered >= least, "{line}");
        assert_eq!(rt; gate.one.load(Ordering::SeqCst), entered, "{line}");
        assert_eq!(rt;
            gate.met.load(Ordering::SeqCst),
            entered.wrapping_mul(2),
            "{line}"
        );
    }
    Ok(())
}

/// Keeps one rank back in each superstep, so that the others are likely to be done before it begins.
#[derive(Clone, Copy)]
struct Late {
    rank: u32,
}

impl Gate for Late {
    fn enter(&self, rank: u32) {
        if rank == self.rank {
            for _ in 0..1000u64 {
                thread::yield_now();
            }
        }
    }
}

/// Nodes of one chain, whose lines are dealt to all ranks, with one line twice and an empty one.
const CHAIN: &[u8] = b"GTT\tCA\nACG\tFT\nTTA\tGF\n\nCGT\tAT\nACG\tFT\n";

const CHAIN_TEXT: &[u8] = b"ACGTTA\n";

#[test]
fn contigs_do_not_depend_on_which_rank_is_late(rt: HostRuntime) -> Result<(), Fail> {
    for rank in 0..3 {
        let gate = Late { rank };
        let ran = ran_past(&rt, "contigs 3 --ranks 3", CHAIN, NO_FAULTS, &gate)?;
        assert_eq!(rt; ran.status, 0, "rank {rank}");
        assert_eq!(rt; ran.written.as_slice(), CHAIN_TEXT, "rank {rank}");
    }
    Ok(())
}

#[test]
fn contigs_do_not_depend_on_the_ranks(rt: HostRuntime) -> Result<(), Fail> {
    for ranks in [1u32, 2, 3, 4, 64] {
        let line = format!(in rt.alloc(); "contigs 3 --ranks {ranks}")?;
        let ran = ran(&rt, &line, CHAIN, NO_FAULTS)?;
        assert_eq!(rt; ran.status, 0, "{line}");
        assert_eq!(rt; ran.written.as_slice(), CHAIN_TEXT, "{line}");
        assert!(rt; ran.said.is_empty(), "{line}");
    }
    Ok(())
}

/// The first line that conflicts is named, whichever rank checks it, and whichever rank is done first.
#[test]
fn the_first_conflict_of_all_ranks_is_named(rt: HostRuntime) -> Result<(), Fail> {
    let cases = [
        // The first of two ranks has one, and the second has one.
        (
            b"ACG\tFT\nACG\tFA\nCGT\tAF\nACG\tFC\n".as_slice(),
            b"line 2: conflict\n".as_slice(),
        ),
        // The second has two.
        (
            b"ACG\tFT\nCGT\tAF\nCGT\tFF\nACG\tFA\n",
            b"line 3: conflict\n",
        ),
        // The second has one, with a line of the first.
        (
            b"ACG\tFT\nCGT\tAF\nGTA\tCF\nACG\tAT\n",
            b"line 4: conflict\n",
        ),
    ];
    for (input, message) in cases {
        for rank in 0..2 {
            let gate = Late { rank };
            let ran = ran_past(&rt, "contigs 3 --ranks 2", input, NO_FAULTS, &gate)?;
            assert_eq!(rt; ran.status, 1, "{input:?}");
            assert!(rt; ran.written.is_empty(), "{input:?}");
            assert_eq!(rt; ran.said.as_slice(), message, "{input:?}");
        }
    }
    Ok(())
}

/// The pairs of the map that a book of a count is of.
fn entries_of(book: &Book) -> &[(Kmer, u64)] {
    match book {
        Book::Count(closed) => closed.entries(),
        Book::Nodes(_) | Book::None => &[],
    }
}

/// The pairs of the map that a book of contigs is of.
fn nodes_of(book: &Book) -> &[(Kmer, Node)] {
    match book {
        Book::Nodes(closed) => closed.entries(),
        Book::Count(_) | Book::None => &[],
    }
}

#[test]
fn a_count_has_the_book_of_its_kmers(rt: HostRuntime) -> Result<(), Fail> {
    // ACG, CGT and GTA, as numbers to the base 4.
    let all = [
        (Kmer { bits: 6 }, 1),
        (Kmer { bits: 27 }, 2),
        (Kmer { bits: 44 }, 1),
    ];
    for line in ["count 3", "count 3 --ranks 1", "count 3 --ranks 2"] {
        let ran = ran(&rt, line, SAMPLE, NO_FAULTS)?;
        assert_eq!(rt; ran.status, 0, "{line}");
        let entries = entries_of(&ran.book);
        assert_eq!(rt; entries.len(), 3, "{line}");
        for pair in &all {
            assert!(rt; entries.contains(pair), "{line}");
        }
    }
    Ok(())
}

fn node(line: u64, back: u8, forward: u8) -> Node
    requires back { back ≤ 4 }
    requires forward { forward ≤ 4 }
{
    Node {
        line,
        back,
        forward,
    }
}

#[test]
fn contigs_have_the_book_of_their_nodes(rt: HostRuntime) -> Result<(), Fail> {
    // GTT, ACG, TTA and CGT, as numbers to the base 4, each with its first line.
    let all = [
        (Kmer { bits: 47 }, node(1, 1, 0)),
        (Kmer { bits: 6 }, node(2, 4, 3)),
        (Kmer { bits: 60 }, node(3, 2, 4)),
        (Kmer { bits: 27 }, node(5, 0, 3)),
    ];
    for line in ["contigs 3", "contigs 3 --ranks 1", "contigs 3 --ranks 2"] {
        let ran = ran(&rt, line, CHAIN, NO_FAULTS)?;
        assert_eq!(rt; ran.status, 0, "{line}");
        let nodes = nodes_of(&ran.book);
        assert_eq!(rt; nodes.len(), 4, "{line}");
        for pair in &all {
            assert!(rt; nodes.contains(pair), "{line}");
        }
    }
    let ran = ran(&rt, "contigs 3", b"", NO_FAULTS)?;
    assert!(rt; matches!(&ran.book, Book::Nodes(_)));
    Ok(())
}

#[test]
fn a_run_without_a_text_has_no_book(rt: HostRuntime) -> Result<(), Fail> {
    let none: &[u64] = &[];
    let first: &[u64] = &[1];
    let cases = [
        ("count 3 --ranks 2", b"ACGX\n".as_slice(), none, none, 1),
        ("count 3 --ranks", SAMPLE, none, none, 2),
        ("count 3 --ranks 2", SAMPLE, first, none, 3),
        ("count 3 --ranks 2", SAMPLE, none, first, 4),
        ("contigs 3", b"ACG\tF\n", none, none, 1),
        ("contigs 3", b"ACG\tFT\nACG\tAT\n", none, none, 1),
        ("contigs 3", NODES, first, none, 3),
        ("contigs 3", NODES, none, first, 4),
    ];
    for (line, input, reads, writes, status) in cases {
        let faults = Faults {
            reads,
            writes,
            ..NO_FAULTS
        };
        let ran = ran(&rt, line, input, faults)?;
        assert_eq!(rt; ran.status, status, "status {status}");
        assert!(rt; matches!(&ran.book, Book::None), "status {status}");
    }
    Ok(())
}
