//! Worked examples of rows.

use crate::{push_rows, rows_over_ranks};
use kmer_text::Kmer;
use std::test::Fail;

#[test]
fn kmers_that_are_counted_often_enough_have_a_row(rt: HostRuntime) -> Result<(), Fail> {
    let alloc = rt.alloc();
    // ACG, CGT and GTA
    let counts = [
        (Kmer { bits: 6 }, 1),
        (Kmer { bits: 27 }, 1234567890),
        (Kmer { bits: 44 }, 2),
    ];
    let mut text = Vec::new(alloc);
    push_rows(&mut text, &counts, 3, 2)?;
    assert_eq!(rt; text.as_slice(), b"CGT\t1234567890\nGTA\t2\n".as_slice());
    push_rows(&mut text, &counts[..1], 3, 1)?;
    push_rows(&mut text, &[], 3, 1)?;
    assert_eq!(rt;
        text.as_slice(),
        b"CGT\t1234567890\nGTA\t2\nACG\t1\n".as_slice()
    );
    Ok(())
}

#[test]
fn ranks_write_the_rows_that_one_writes(rt: HostRuntime) -> Result<(), Fail> {
    // AAA, AAC, AAG, AAT and ACA
    let counts = [
        (Kmer { bits: 0 }, 3),
        (Kmer { bits: 1 }, 1),
        (Kmer { bits: 2 }, 12),
        (Kmer { bits: 3 }, 2),
        (Kmer { bits: 4 }, 2),
    ];
    let all = b"AAA\t3\nAAG\t12\nAAT\t2\nACA\t2\n";
    // With 7 ranks there are fewer entries than ranks.
    for ranks in 1..8 {
        let text = rows_over_ranks(&rt, rt.alloc(), &counts, 3, 2, ranks)?;
        assert_eq!(rt; text.as_slice(), all.as_slice());
    }
    assert!(rt; rows_over_ranks(&rt, rt.alloc(), &[], 3, 1, 4)?.is_empty());
    Ok(())
}
