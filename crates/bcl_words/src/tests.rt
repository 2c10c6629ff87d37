//! The words of each type, and values read back from them.

use crate::{Bytes16, Bytes64, Object, Pair, hash, have_same_words, read_back};

/// Eight words, of which the first two may be other than 0.
fn two(first: u64, second: u64) -> [u64; 8] {
    [first, second, 0, 0, 0, 0, 0, 0]
}

#[test]
fn a_number_is_its_word(rt: HostRuntime) {
    assert_eq!(rt; 255u8.to_words(), two(255, 0));
    assert_eq!(rt; u8::from_words(&two(255, 0)), Some(255));
    assert_eq!(rt; u8::from_words(&two(256, 0)), None);
    assert_eq!(rt; u8::from_words(&two(1, 1)), None);
    assert_eq!(rt; u32::from_words(&two((1 << 32) - 1, 0)), Some(u32::MAX));
    assert_eq!(rt; u32::from_words(&two(1 << 32, 0)), None);
    assert_eq!(rt; u64::from_words(&two(u64::MAX, 0)), Some(u64::MAX));
    assert_eq!(rt; u64::from_words(&[1, 0, 0, 0, 0, 0, 0, 1]), None);
}

#[test]
fn a_long_number_has_its_low_half_first(rt: HostRuntime) {
    let number = (1u128 << 64) + 2;
    assert_eq!(rt; number.to_words(), two(2, 1));
    assert_eq!(rt; u128::from_words(&two(2, 1)), Some(number));
    assert_eq!(rt; u128::from_words(&[2, 1, 1, 0, 0, 0, 0, 0]), None);
}

#[test]
fn eight_bytes_are_a_word_the_lowest_first(rt: HostRuntime) {
    let few = Bytes16 {
        bytes: [1, 2, 3, 4, 5, 6, 7, 8, 9, 10, 11, 12, 13, 14, 15, 16],
    };
    assert_eq!(rt;
        few.to_words(),
        two(0x0807_0605_0403_0201, 0x100f_0e0d_0c0b_0a09)
    );
    let mut bytes = [0; 64];
    bytes[0] = 1;
    bytes[9] = 2;
    bytes[63] = 3;
    let many = Bytes64 { bytes };
    assert_eq!(rt; many.to_words(), [1, 2 << 8, 0, 0, 0, 0, 0, 3 << 56]);
    assert_eq!(rt; read_back(&few), Some(few));
    assert_eq!(rt; read_back(&many), Some(many));
    assert_eq!(rt; Bytes16::from_words(&[0, 0, 1, 0, 0, 0, 0, 0]), None);
}

#[test]
fn a_pair_has_the_words_of_its_parts(rt: HostRuntime) {
    let pair = Pair {
        a: Pair {
            a: 5u8,
            b: (3u128 << 64) + 4,
        },
        b: Pair { a: 6u64, b: 7u32 },
    };
    assert_eq!(rt; pair.to_words(), [5, 4, 3, 6, 7, 0, 0, 0]);
    assert_eq!(rt; read_back(&pair), Some(pair));
    assert_eq!(rt; Pair::<u8, u8>::from_words(&two(1, 256)), None);
    assert_eq!(rt; Pair::<u8, u8>::from_words(&[1, 2, 1, 0, 0, 0, 0, 0]), None);
    assert_eq!(rt; Pair::<Bytes64, u8>::WORDS, 9);
}

#[test]
fn values_are_the_same_where_their_words_are(rt: HostRuntime) {
    assert_eq!(rt; read_back(&200u8), Some(200));
    assert_eq!(rt; read_back(&u32::MAX), Some(u32::MAX));
    assert_eq!(rt; read_back(&u64::MAX), Some(u64::MAX));
    assert_eq!(rt; read_back(&u128::MAX), Some(u128::MAX));
    assert!(rt; have_same_words(&Pair { a: 1u8, b: 2u64 }, &Pair { a: 1, b: 2 }));
    assert!(rt; !have_same_words(&Pair { a: 1u8, b: 2u64 }, &Pair { a: 2, b: 1 }));
}

#[test]
fn keys_have_their_hashes(rt: HostRuntime) {
    assert_eq!(rt; hash(&[0]), 0);
    assert_eq!(rt; hash(&[1]), 0x2FE9_4F82_8FE9_4F82);
    assert_eq!(rt; hash(&[3]), 0x8FBB_EE87_6FBB_EE87);
    assert_eq!(rt; hash(&[2, 1]), 0x3C89_7829_0660_1949);
}
