//! Worked examples of keys and texts.

use crate::{key_behind, text_of};
use kmer_text::Kmer;
use std::test::Fail;

#[test]
fn the_first_letter_makes_room_for_the_next(rt: HostRuntime) -> Result<(), Fail> {
    // ACG, CGT and GTA, and the letters T and A
    assert_eq!(rt; key_behind(Kmer { bits: 6 }, 3, 3), Kmer { bits: 27 });
    assert_eq!(rt; key_behind(Kmer { bits: 27 }, 3, 0), Kmer { bits: 44 });
    assert_eq!(rt; key_behind(Kmer { bits: 2 }, 1, 1), Kmer { bits: 1 });
    let all_t = Kmer {
        bits: (1 << 62) - 1,
    };
    assert_eq!(rt; key_behind(all_t, 31, 3), all_t);
    Ok(())
}

#[test]
fn each_text_has_a_line(rt: HostRuntime) -> Result<(), Fail> {
    let alloc = rt.alloc();
    assert!(rt; text_of(alloc, &[])?.is_empty());
    let texts = vec![in alloc; b"TT".to_vec(alloc)?, b"ACG".to_vec(alloc)?]?;
    assert_eq!(rt; text_of(alloc, &texts)?.as_slice(), b"TT\nACG\n".as_slice());
    Ok(())
}
