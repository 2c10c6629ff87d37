//! The whole program over devices in memory.

mod ranks;

use crate::{Book, top};
use bcl_io::{MemSink, MemSource};
use bcl_phase::{Always, Gate};
use bcl_words::NoMemory;
use std::alloc::Global;
use std::marker::Sync;
use std::test::Fail;
use std::thread::Threads;

/// The calls that fail, by their numbers, and how many bytes each call moves.
#[derive(Clone, Copy)]
struct Faults<'a> {
    piece: usize,
    reads: &'a [u64],
    writes: &'a [u64],
    says: &'a [u64],
}

const NO_FAULTS: Faults<'static> = Faults {
    piece: 7,
    reads: &[],
    writes: &[],
    says: &[],
};

/// What a run answered, and what its two sinks took.
#[derive(Drop)]
struct Outcome {
    status: u8,
    written: Vec<u8>,
    said: Vec<u8>,
    book: Book,
}

fn words_of(alloc: Global, line: &str) -> Result<Vec<String>, Fail> {
    let mut words = Vec::new(alloc);
    for word in line.split_whitespace() {
        words.push(String::from_str(alloc, word)?)?;
    }
    Ok(words)
}

/// Runs the program on the words of a line.
fn ran<R: Threads + Sync + AllocGlobal>(
    rt: &R,
    line: &str,
    input: &[u8],
    faults: Faults,
) -> Result<Outcome, Fail> {
    ran_past(rt, line, input, faults, &Always)
}

/// Runs the program on the words of a line, where each rank passes a gate.
fn ran_past<R: Threads + Sync + AllocGlobal, G: Gate>(
    rt: &R,
    line: &str,
    input: &[u8],
    faults: Faults,
    gate: &G,
) -> Result<Outcome, Fail> {
    let alloc = rt.alloc();
    let piece = faults.piece.max(1);
    let words = words_of(alloc, line)?;
    let mut src = MemSource::new(input.to_vec(alloc)?, piece, faults.reads.to_vec(alloc)?);
    let mut out = MemSink::new(alloc, 1000, piece, faults.writes.to_vec(alloc)?)?;
    let mut err = MemSink::new(alloc, 1000, piece, faults.says.to_vec(alloc)?)?;
    let ended = top(rt, alloc, &words, &mut src, &mut out, &mut err, gate);
    if ended.status == 5 {
        return Err(NoMemory.into());
    }
    Ok(Outcome {
        status: ended.status,
        written: out.taken().to_vec(alloc)?,
        said: err.taken().to_vec(alloc)?,
        book: ended.book,
    })
}

const SAMPLE: &[u8] = b"ACGT\nCGTA\n";

const SAMPLE_TEXT: &[u8] = b"ACG\t1\nCGT\t2\nGTA\t1\n";

const NODES: &[u8] = b"ACG\tFT\nCGT\tAA\nGTA\tCF\n";

const NODES_TEXT: &[u8] = b"ACGTA\n";

const USAGE: &str = "usage: bcl count K [--ranks N] [--min M] [--promise own|any] [--hist]
       bcl contigs K [--ranks N] [--promise own|any]
       bcl drill NUMBER LINES K [--ranks N] [--promise own|any]
";

#[test]
fn kmers_are_counted_in_byte_order(rt: HostRuntime) -> Result<(), Fail> {
    let cases = [
        ("count 3", SAMPLE, SAMPLE_TEXT),
        ("count 3", b"", b""),
        ("count 3", b"AC\n", b""),
        ("count 3", b"ACG\r\nACG", b"ACG\t2\n"),
        ("count 1", b"TACGT\n", b"A\t1\nC\t1\nG\t1\nT\t2\n"),
        ("count 31", SAMPLE, b""),
        ("count 3 --ranks 1", SAMPLE, SAMPLE_TEXT),
        ("count 3 --ranks 2", SAMPLE, SAMPLE_TEXT),
        ("count 3 --ranks 64", SAMPLE, SAMPLE_TEXT),
    ];
    for (line, input, text) in cases {
        let ran = ran(&rt, line, input, NO_FAULTS)?;
        assert_eq!(rt; ran.status, 0, "{line} of {input:?}");
        assert_eq!(rt; ran.written.as_slice(), text, "{line} of {input:?}");
        assert!(rt; ran.said.is_empty(), "{line} of {input:?}");
    }
    Ok(())
}

#[test]
fn pieces_of_any_size_give_one_text(rt: HostRuntime) -> Result<(), Fail> {
    for piece in 1..30 {
        let ran = ran(&rt, "count 3", SAMPLE, Faults { piece, ..NO_FAULTS })?;
        assert_eq!(rt; ran.status, 0, "piece {piece}");
        assert_eq!(rt; ran.written.as_slice(), SAMPLE_TEXT, "piece {piece}");
    }
    Ok(())
}

#[test]
fn bad_input_is_refused_unwritten_and_its_line_named(rt: HostRuntime) -> Result<(), Fail> {
    let cases = [
        (b"ACGX\n".as_slice(), b"line 1: bad letter\n".as_slice()),
        (b"\n\nACGN\n", b"line 3: bad letter\n"),
        (b"ACG\nacg\n", b"line 2: bad letter\n"),
        (b"ACG\0\n", b"line 1: bad letter\n"),
    ];
    for (input, message) in cases {
        let ran = ran(&rt, "count 3", input, NO_FAULTS)?;
        assert_eq!(rt; ran.status, 1, "{input:?}");
        assert!(rt; ran.written.is_empty(), "{input:?}");
        assert_eq!(rt; ran.said.as_slice(), message, "{input:?}");
    }
    Ok(())
}

#[test]
fn contigs_are_written_in_byte_order(rt: HostRuntime) -> Result<(), Fail> {
    let cases = [
        (NODES, NODES_TEXT),
        (b"AAA\tFA\n", b"AAA\n"),
        (b"ACG\tFT\n", b"ACG\n"),
        (b"ACG\tFT\r\n\nACG\tFT", b"ACG\n"),
        (b"TTT\tFF\nCCC\tFF\n", b"CCC\nTTT\n"),
        (b"ACG\tAT\n", b""),
        (b"", b""),
    ];
    for (input, text) in cases {
        let ran = ran(&rt, "contigs 3", input, NO_FAULTS)?;
        assert_eq!(rt; ran.status, 0, "{input:?}");
        assert_eq!(rt; ran.written.as_slice(), text, "{input:?}");
        assert!(rt; ran.said.is_empty(), "{input:?}");
    }
    Ok(())
}

#[test]
fn bad_nodes_and_conflicts_are_refused_and_named(rt: HostRuntime) -> Result<(), Fail> {
    let cases = [
        (b"ACG\tF\n".as_slice(), b"line 1: bad length\n".as_slice()),
        (b"\nACX FF\n", b"line 2: bad letter\n"),
        (b"ACG\tFF\nACG FX\n", b"line 2: no tab\n"),
        (b"ACG\tNF\n", b"line 1: bad extension\n"),
        (b"ACG\tFT\nACG\tFT\nACG\tFA\n", b"line 3: conflict\n"),
        (b"ACG\tFT\nACG\tFA\nACG\n", b"line 3: bad length\n"),
    ];
    for (input, message) in cases {
        let ran = ran(&rt, "contigs 3", input, NO_FAULTS)?;
        assert_eq!(rt; ran.status, 1, "{input:?}");
        assert!(rt; ran.written.is_empty(), "{input:?}");
        assert_eq!(rt; ran.said.as_slice(), message, "{input:?}");
    }
    Ok(())
}

#[test]
fn other_words_get_the_usage(rt: HostRuntime) -> Result<(), Fail> {
    let lines = [
        "",
        "count",
        "count 0",
        "count 03",
        "count +3",
        "count 32",
        "count 32 --ranks 2",
        "count 3 3",
        "counts 3",
        "contigs",
        "contigs 32",
        "contigs 3 --min 2",
        "contigs 3 --promise own",
        "contigs 3 --ranks 65",
        "count 3 --min 0",
        "count 3 --ranks=2",
        "count 3 --promise",
        "count 3 --ranks 2 --ranks 2",
        "count 99999999999999999999999999",
    ];
    for line in lines {
        let ran = ran(&rt, line, SAMPLE, NO_FAULTS)?;
        assert_eq!(rt; ran.status, 2, "{line}");
        assert!(rt; ran.written.is_empty(), "{line}");
        assert_eq!(rt; ran.said.as_slice(), USAGE.as_bytes(), "{line}");
    }
    Ok(())
}

#[test]
fn a_read_fault_is_told_and_writes_nothing(rt: HostRuntime) -> Result<(), Fail> {
    for call in 1..4 {
        let faults = Faults {
            piece: 4,
            reads: &[call],
            ..NO_FAULTS
        };
        let ran = ran(&rt, "count 3", SAMPLE, faults)?;
        assert_eq!(rt; ran.status, 3, "call {call}");
        assert!(rt; ran.written.is_empty(), "call {call}");
        assert_eq!(rt;
            ran.said.as_slice(),
            b"read fault\n".as_slice(),
            "call {call}"
        );
    }
    Ok(())
}

#[test]
fn a_write_fault_is_told_and_leaves_a_front(rt: HostRuntime) -> Result<(), Fail> {
    for call in 1..5u64 {
        let faults = Faults {
            piece: 4,
            writes: &[call],
            ..NO_FAULTS
        };
        let ran = ran(&rt, "count 3", SAMPLE, faults)?;
        assert_eq!(rt; ran.status, 4, "call {call}");
        assert!(rt;
            SAMPLE_TEXT.starts_with(ran.written.as_slice()),
            "call {call}"
        );
        assert_eq!(rt; ran.written.len() as u64, call * 4 - 4, "call {call}");
        assert_eq!(rt;
            ran.said.as_slice(),
            b"write fault\n".as_slice(),
            "call {call}"
        );
    }
    Ok(())
}

#[test]
fn a_fault_of_err_changes_no_status(rt: HostRuntime) -> Result<(), Fail> {
    let none: &[u64] = &[];
    let first: &[u64] = &[1];
    let cases = [
        ("count 3", SAMPLE, none, none, 0),
        ("count 3", b"ACGX\n".as_slice(), none, none, 1),
        ("count", SAMPLE, none, none, 2),
        ("count 3", SAMPLE, first, none, 3),
        ("count 3", SAMPLE, none, first, 4),
    ];
    for (line, input, reads, writes, status) in cases {
        let faults = Faults {
            reads,
            writes,
            says: first,
            ..NO_FAULTS
        };
        let ran = ran(&rt, line, input, faults)?;
        assert_eq!(rt; ran.status, status, "status {status}");
        assert!(rt; ran.said.is_empty(), "status {status}");
    }
    Ok(())
}
