//! Worked examples of conflicts and contigs.

ghost use Rattle.std.specs.Prelude.{◌≤◌};
ghost use Rattle.kmer_text.specs.Kmers.{IsKmerLength};

use crate::{WalkFault, Walked, contigs, text_of};
use bcl_phase::Always;
use bcl_words::NoMemory;
use kmer_text::{Kmer, Lines, check_nodes};
use std::alloc::Global;
use std::marker::Sync;
use std::test::Fail;
use std::thread::Threads;

/// The contigs of a text over so many ranks, or why there are none.
fn walked_over<H: Threads + Sync>(
    rt: &H,
    alloc: Global,
    text: &[u8],
    k: u32,
    ranks: u32,
) -> Result<Result<Walked, WalkFault>, Fail>
    requires k { IsKmerLength k }
    requires ranks { (1 ≤ ranks) × (ranks ≤ 64) }
{
    let lines = Lines::cut(alloc, text.to_vec(alloc)?)?;
    check_nodes(&lines, k)?;
    match contigs(rt, alloc, &lines, k, ranks, &Always) {
        Err(WalkFault::NoMemory) => Err(NoMemory.into()),
        walked => Ok(walked),
    }
}

/// The contigs of a text, one a line.
fn contigs_over<H: Threads + Sync>(
    rt: &H,
    alloc: Global,
    text: &[u8],
    k: u32,
    ranks: u32,
) -> Result<Vec<u8>, Fail>
    requires k { IsKmerLength k }
    requires ranks { (1 ≤ ranks) × (ranks ≤ 64) }
{
    let walked = walked_over(rt, alloc, text, k, ranks)??;
    Ok(text_of(alloc, &walked.texts)?)
}

#[test]
fn the_first_line_that_conflicts_is_named(rt: HostRuntime) -> Result<(), Fail> {
    let cases = [
        (b"ACG\tFT\nACG\tFT\nACG\tFA\n".as_slice(), 3),
        (b"\nCGT\tAA\nACG\tCT\n\nACG\tGT\nCGT\tAC\n", 5),
        // one extension differs
        (b"ACG\tFT\nACG\tCT\n", 2),
        (b"ACG\tFT\nACG\tFG\n", 2),
        // the third line agrees with the second, and not with the first
        (b"ACG\tFT\nACG\tFA\nACG\tFA\n", 2),
        // a line of each block conflicts
        (b"ACG\tFT\nCGT\tAA\nACG\tFC\nCGT\tAC\nACG\tFA\nCGT\tAG\n", 3),
    ];
    for (text, line) in cases {
        for ranks in 1..8 {
            match walked_over(&rt, rt.alloc(), text, 3, ranks)? {
                Ok(_) => assert!(rt; false, "in {text:?}"),
                Err(fault) => assert_eq!(rt; fault, WalkFault::Conflict(line), "in {text:?}"),
            }
        }
    }
    Ok(())
}

#[test]
fn the_map_keeps_the_first_line_of_each_key(rt: HostRuntime) -> Result<(), Fail> {
    let text = b"\nCGT\tAA\nACG\tCT\n\nACG\tCT\nCGT\tAA\n";
    for ranks in 1..8 {
        let walked = walked_over(&rt, rt.alloc(), text, 3, ranks)??;
        let pairs = walked.closed.entries();
        assert_eq!(rt; pairs.len(), 2);
        for (key, node) in pairs {
            // ACG and CGT, as numbers to the base 4
            let line = if key.bits == 6 { 3 } else { 2 };
            assert!(rt; key.bits == 6 || key.bits == 27);
            assert_eq!(rt; node.line, line);
        }
    }
    Ok(())
}

#[test]
fn contigs_are_walked_from_each_start(rt: HostRuntime) -> Result<(), Fail> {
    let cases = [
        // a chain
        (
            b"ACG\tFT\nCGT\tAA\nGTA\tCF\n".as_slice(),
            b"ACGTA\n".as_slice(),
        ),
        // a loop
        (b"AAA\tFA\n", b"AAA\n"),
        // a gap
        (b"ACG\tFT\n", b"ACG\n"),
        // a line that is repeated
        (b"ACG\tFT\nACG\tFT\n", b"ACG\n"),
        // byte order, and not that of the starts
        (b"TTT\tFF\nCCC\tFF\nGGG\tFF\n", b"CCC\nGGG\nTTT\n"),
        // a loop that comes back behind its start
        (b"ACG\tFT\nCGT\tAC\nGTC\tCG\nTCG\tGT\n", b"ACGTCG\n"),
        // two starts that run into one chain
        (b"AAC\tFG\nCAC\tFG\nACG\tAF\n", b"AACG\nCACG\n"),
        // no start
        (b"ACG\tAT\nCGT\tAA\n", b""),
        (b"", b""),
    ];
    for (text, contigs) in cases {
        for ranks in [1, 2, 3, 4, 64] {
            let found = contigs_over(&rt, rt.alloc(), text, 3, ranks)?;
            assert_eq!(rt; found.as_slice(), contigs, "in {text:?}");
        }
    }
    Ok(())
}

/// A text of 118 letters, of blocks that are a T and the nine digits of the block's number to the base 3.
fn chain_of(alloc: Global, first_block: u64) -> Result<Vec<u8>, Fail> {
    let mut chain = Vec::new(alloc);
    for i in 0..12 {
        let mut rest = first_block.saturating_add(i);
        let mut digits = Vec::new(alloc);
        for _ in 0..9 {
            digits.push(b"ACG"[(rest % 3) as usize])?;
            rest /= 3;
        }
        digits.push(b'T')?;
        digits.reverse();
        chain.extend_from_slice(&digits)?;
    }
    chain.truncate(118);
    Ok(chain)
}

/// A line for each 19 letters of a chain.
fn push_nodes(text: &mut Vec<u8>, chain: &[u8]) -> Result<(), Fail> {
    for (place, key) in chain.windows(19).enumerate() {
        let back = chain.get(place.wrapping_sub(1)).copied();
        let forward = chain.get(place.saturating_add(19)).copied();
        text.extend_from_slice(key)?;
        text.push(b'\t')?;
        text.push(back.unwrap_or(b'F'))?;
        text.push(forward.unwrap_or(b'F'))?;
        text.push(b'\n')?;
    }
    Ok(())
}

#[test]
fn ten_thousand_nodes_give_their_chains(rt: HostRuntime) -> Result<(), Fail> {
    let alloc = rt.alloc();
    let mut nodes = Vec::new(alloc);
    let mut chains = Vec::new(alloc);
    for number in 0..100 {
        let chain = chain_of(alloc, number * 12)?;
        push_nodes(&mut nodes, &chain)?;
        chains.extend_from_slice(&chain)?;
        chains.push(b'\n')?;
    }
    assert_eq!(rt; nodes.len(), 230_000);
    let front = b"TAAAAAAAAATAAAAAAAACTAAAAAAAAG".as_slice();
    assert!(rt; chains.starts_with(front));
    for ranks in 1..4 {
        let found = contigs_over(&rt, alloc, &nodes, 19, ranks)?;
        assert!(rt; found == chains);
    }
    Ok(())
}
