//! Worked examples of lines, windows, packed words, nodes, and their words as objects.

use crate::{
    CutFault, InputFault, Kind, Kmer, LetterFault, Lines, Node, Windows, check_letters,
    check_nodes, node_of, window,
};
use bcl_words::{Object, read_back};
use std::alloc::Global;
use std::test::Fail;

fn cut(alloc: Global, text: &[u8]) -> Result<Result<Lines, CutFault>, Fail> {
    Ok(Lines::cut(alloc, text.to_vec(alloc)?))
}

/// The lines of a text, each followed by a bar.
fn barred(alloc: Global, text: &[u8]) -> Result<Vec<u8>, Fail> {
    let lines = cut(alloc, text)??;
    let mut all = Vec::new(alloc);
    for i in 0..lines.count() {
        all.extend_from_slice(lines.line(i))?;
        all.push(b'|')?;
    }
    Ok(all)
}

#[test]
fn a_text_is_cut_at_each_newline(rt: HostRuntime) -> Result<(), Fail> {
    let cases = [
        (b"".as_slice(), b"".as_slice()),
        (b"\n", b"|"),
        (b"AC\nG", b"AC|G|"),
        (b"AC\r\nG\r", b"AC|G|"),
        (b"\r", b"|"),
        (b"A\r\r\n\nC\n", b"A\r||C|"),
    ];
    for (text, lines) in cases {
        let all = barred(rt.alloc(), text)?;
        assert_eq!(rt; all.as_slice(), lines, "in {text:?}");
    }
    Ok(())
}

#[test]
fn words_are_packed_with_the_first_letter_highest(rt: HostRuntime) {
    let packed = [(b"ACG", 6), (b"CGT", 27), (b"GTA", 44)];
    for (at, (word, bits)) in packed.into_iter().enumerate() {
        let kmer = Kmer { bits };
        let mut letters = [0u8; 3];
        kmer.letters(3, &mut letters);
        assert_eq!(rt; &letters, word);
        assert_eq!(rt; window(b"ACGTA", at, 3), kmer, "of {word:?}");
    }
}

#[test]
fn a_line_has_its_windows_in_order(rt: HostRuntime) {
    let mut all = Windows::new(b"ACGTA", 3);
    for bits in [6, 27, 44] {
        assert_eq!(rt; all.next(), Some(Kmer { bits }));
    }
    assert_eq!(rt; all.next(), None);
    assert_eq!(rt; Windows::new(b"AC", 3).next(), None);
    assert_eq!(rt; Windows::new(b"T", 1).next(), Some(Kmer { bits: 3 }));
}

#[test]
fn the_first_bad_line_is_named(rt: HostRuntime) -> Result<(), Fail> {
    let alloc = rt.alloc();
    assert_eq!(rt; check_letters(&cut(alloc, b"ACGT\n\nAC\n")??, 3), Ok(2));
    for (text, line) in [
        (b"ACGX\nN\n".as_slice(), 1),
        (b"\n\nACGN\n", 3),
        (b"acg\n", 1),
    ] {
        let bad = LetterFault::Bad(InputFault {
            line,
            kind: Kind::Letter,
        });
        assert_eq!(rt;
            check_letters(&cut(alloc, text)??, 3),
            Err(bad),
            "in {text:?}"
        );
    }
    Ok(())
}

#[test]
fn nodes_are_read_line_by_line(rt: HostRuntime) -> Result<(), Fail> {
    let alloc = rt.alloc();
    let lines = cut(alloc, b"ACG\tFT\n\nCGT\tAF\r\n")??;
    assert_eq!(rt; check_nodes(&lines, 3), Ok(()));
    if check_nodes(&lines, 3).is_ok() && lines.count() == 3 {
        let (key, node) = node_of(&lines, 0, 3).ok_or("the first line is a node")?;
        assert_eq!(rt;
            (key.bits, node.line, node.back, node.forward),
            (6, 1, 4, 3)
        );
        assert_eq!(rt; node_of(&lines, 1, 3), None);
        let (key, node) = node_of(&lines, 2, 3).ok_or("the last line is a node")?;
        assert_eq!(rt;
            (key.bits, node.line, node.back, node.forward),
            (27, 3, 0, 4)
        );
    }
    Ok(())
}

#[test]
fn a_bad_node_is_named_by_its_first_fault(rt: HostRuntime) -> Result<(), Fail> {
    let cases = [
        (b"ACG\tF\n".as_slice(), 1, Kind::Length),
        (b"\nACGT\tFT\n", 2, Kind::Length),
        (b"ACG\tFT\nACX\tFT\n", 2, Kind::Letter),
        (b"ACX FT\n", 1, Kind::Letter),
        (b"ACG FX\n", 1, Kind::Tab),
        (b"ACG\tXT\n", 1, Kind::Extension),
        (b"ACG\tFf\nACG\n", 1, Kind::Extension),
    ];
    for (text, line, kind) in cases {
        let checked = check_nodes(&cut(rt.alloc(), text)??, 3);
        assert_eq!(rt; checked, Err(InputFault { line, kind }), "in {text:?}");
    }
    Ok(())
}

#[test]
fn a_kmer_is_its_word_and_a_node_two(rt: HostRuntime) -> Result<(), Fail> {
    let kmer = Kmer { bits: 27 };
    assert_eq!(rt; kmer.to_words(), [27, 0, 0, 0, 0, 0, 0, 0]);
    assert_eq!(rt; read_back(&kmer), Some(kmer));
    assert_eq!(rt; Kmer::from_words(&[27, 1, 0, 0, 0, 0, 0, 0]), None);
    let lines = cut(rt.alloc(), b"ACG\tFT")??;
    if check_nodes(&lines, 3).is_ok() && lines.count() == 1 {
        let (_, node) = node_of(&lines, 0, 3).ok_or("the first line is a node")?;
        assert_eq!(rt; node.to_words(), [1, 35, 0, 0, 0, 0, 0, 0]);
        assert_eq!(rt; read_back(&node), Some(node));
    }
    assert_eq!(rt; Node::from_words(&[1, 37, 0, 0, 0, 0, 0, 0]), None);
    assert_eq!(rt; Node::from_words(&[1, 40, 0, 0, 0, 0, 0, 0]), None);
    assert_eq!(rt; Node::from_words(&[1, 35, 1, 0, 0, 0, 0, 0]), None);
    Ok(())
}
