//! Worked examples of blocks.

use crate::first_of;
use kmer_text::Lines;
use std::alloc::Global;
use std::test::Fail;

/// Where the blocks of three ranks begin, and where the last one ends.
fn thirds(alloc: Global, text: &[u8]) -> Result<[u32; 4], Fail> {
    let lines = Lines::cut(alloc, text.to_vec(alloc)?)?;
    Ok([
        first_of(&lines, 0, 3),
        first_of(&lines, 1, 3),
        first_of(&lines, 2, 3),
        first_of(&lines, 3, 3),
    ])
}

#[test]
fn lines_are_dealt_in_blocks(rt: HostRuntime) -> Result<(), Fail> {
    assert_eq!(rt; thirds(rt.alloc(), b"A\nC\nG\nT\nA\nC\nG\n")?, [0, 2, 4, 7]);
    // Fewer lines than ranks: the first rank has none.
    assert_eq!(rt; thirds(rt.alloc(), b"A\nC\n")?, [0, 0, 1, 2]);
    assert_eq!(rt; thirds(rt.alloc(), b"")?, [0, 0, 0, 0]);
    Ok(())
}
