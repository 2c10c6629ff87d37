//! A word of K letters as a number.

ghost use Rattle.std.specs.Prelude.{◌≡◌, ℕ, ◌+◌, ◌*◌, ◌/◌, ◌%◌, ◌^◌, ◌<◌, ◌≤◌, ◌++◌, true, length, drop, slice_range, IsTrue};
ghost use Rattle.kmer_text.specs.Letters.{are_letters};
ghost use Rattle.kmer_text.specs.Kmers.{IsKmerLength, digit_of, letter_of, number_of, word_of};

use std::marker::Model;

/// The most letters of a k-mer.
pub const MAX_K: u32 = 31;

/// A word of letters, packed: A is 0, C is 1, G is 2, T is 3, two bits a letter, the first letter highest. So the order
/// of k-mers of one K is the byte order of their words. A contract sees the number.
#[derive(Clone, Copy, Debug, PartialEq, Eq, PartialOrd, Ord, Hash)]
pub struct Kmer {
    pub bits: u64,
}

impl Model for Kmer {
    ghost use Rattle.std.specs.Prelude.{ℕ};

    ghost Value = { ℕ };

    ghost view = { λ a. a.bits };

    ghost inverse = { λ n. record { bits = n } };
}

/// The digit that a letter stands for.
pub(crate) fn digit(letter: u8) -> u64
    ensures { result ≡ digit_of letter }
{
    match letter {
        b'A' => 0,
        b'C' => 1,
        b'G' => 2,
        _ => 3,
    }
}

/// The letter that a digit stands for.
fn letter(digit: u64) -> u8
    ensures { result ≡ letter_of digit }
{
    match digit {
        0 => b'A',
        1 => b'C',
        2 => b'G',
        _ => b'T',
    }
}

/// The number of a word.
pub(crate) fn packed(word: &[u8]) -> u64
    requires { length word.now ≤ 31 }
    ensures value { result ≡ number_of word.now }
    ensures bound { result < 4 ^ length word.now }
{
    let mut bits = 0;
    for byte in word {
        bits = bits * 4 + digit(*byte);
    }
    bits
}

/// The `k` letters at a place of a line. [`Windows`](crate::Windows) packs each window of a line from the one before it.
pub fn window(line: &[u8], at: usize, k: u32) -> Kmer
    requires k { IsKmerLength k }
    requires letters { IsTrue (are_letters line.now) }
    requires in_range { at + k ≤ length line.now }
    ensures value { result ≡ number_of (slice_range line.now at (at + k)) }
    ensures bound { result < 4 ^ k }
{
    Kmer {
        bits: packed(&line[at..at + k as usize]),
    }
}

impl Kmer {
    /// Writes the `k` letters of the word.
    pub fn letters(&self, k: u32, out: &mut [u8])
        requires k { IsKmerLength k }
        requires value { self.now < 4 ^ k }
        requires room { length out.old ≡ k }
        ensures { out.new ≡ word_of k self.now }
    {
        write_word(self.bits, out);
    }
}

/// The words of four letters, one after another in byte order. Those of a row begin with the same two letters.
static FOURS: [u8; 1024] = *b"\
       AAAAAAACAAAGAAATAACAAACCAACGAACTAAGAAAGCAAGGAAGTAATAAATCAATGAATT\
       ACAAACACACAGACATACCAACCCACCGACCTACGAACGCACGGACGTACTAACTCACTGACTT\
       AGAAAGACAGAGAGATAGCAAGCCAGCGAGCTAGGAAGGCAGGGAGGTAGTAAGTCAGTGAGTT\
       ATAAATACATAGATATATCAATCCATCGATCTATGAATGCATGGATGTATTAATTCATTGATTT\
       CAAACAACCAAGCAATCACACACCCACGCACTCAGACAGCCAGGCAGTCATACATCCATGCATT\
       CCAACCACCCAGCCATCCCACCCCCCCGCCCTCCGACCGCCCGGCCGTCCTACCTCCCTGCCTT\
       CGAACGACCGAGCGATCGCACGCCCGCGCGCTCGGACGGCCGGGCGGTCGTACGTCCGTGCGTT\
       CTAACTACCTAGCTATCTCACTCCCTCGCTCTCTGACTGCCTGGCTGTCTTACTTCCTTGCTTT\
       GAAAGAACGAAGGAATGACAGACCGACGGACTGAGAGAGCGAGGGAGTGATAGATCGATGGATT\
       GCAAGCACGCAGGCATGCCAGCCCGCCGGCCTGCGAGCGCGCGGGCGTGCTAGCTCGCTGGCTT\
       GGAAGGACGGAGGGATGGCAGGCCGGCGGGCTGGGAGGGCGGGGGGGTGGTAGGTCGGTGGGTT\
       GTAAGTACGTAGGTATGTCAGTCCGTCGGTCTGTGAGTGCGTGGGTGTGTTAGTTCGTTGGTTT\
       TAAATAACTAAGTAATTACATACCTACGTACTTAGATAGCTAGGTAGTTATATATCTATGTATT\
       TCAATCACTCAGTCATTCCATCCCTCCGTCCTTCGATCGCTCGGTCGTTCTATCTCTCTGTCTT\
       TGAATGACTGAGTGATTGCATGCCTGCGTGCTTGGATGGCTGGGTGGTTGTATGTCTGTGTGTT\
       TTAATTACTTAGTTATTTCATTCCTTCGTTCTTTGATTGCTTGGTTGTTTTATTTCTTTGTTTT";

/// Writes the last four letters of a number.
fn write_four(bits: u64, out: &mut [u8], at: usize)
    requires { at + 4 ≤ length out.old }
    ensures written { drop at out.new ≡ word_of 4 bits ++ drop (at + 4) out.old }
    ensures length { length out.new ≡ length out.old }
{
    let from = (bits % 256) as usize * 4;
    let (a, b, c, d) = (
        FOURS[from],
        FOURS[from + 1],
        FOURS[from + 2],
        FOURS[from + 3],
    );
    out[at + 3] = d;
    out[at + 2] = c;
    out[at + 1] = b;
    out[at] = a;
}

/// Writes the last letters of a number in front of a place, as many as there is room for.
fn write_before(bits: u64, out: &mut [u8], end: usize)
    requires { end ≤ length out.old }
    ensures { out.new ≡ word_of end bits ++ drop end out.old }
{
    let mut rest = bits;
    let mut left = end;
    while left > 0 {
        left -= 1;
        out[left] = letter(rest % 4);
        rest /= 4;
    }
}

/// Writes the word of a number, with as many letters as there is room for: four at a time from the last on, and then those
/// that are left in front.
fn write_word(bits: u64, out: &mut [u8])
    requires { length out.old ≤ 31 }
    ensures { out.new ≡ word_of (length out.old) bits }
{
    let mut rest = bits;
    let mut left = out.len();
    while left >= 4 {
        left -= 4;
        write_four(rest, out, left);
        rest /= 256;
    }
    write_before(rest, out, left);
}
