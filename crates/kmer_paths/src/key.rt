//! The key behind a node.

ghost use Rattle.std.specs.Prelude.{◌≡◌, ◌+◌, ◌*◌, ◌%◌, ◌-◌, ◌^◌, ◌<◌};
ghost use Rattle.kmer_text.specs.Kmers.{IsKmerLength};

use kmer_text::Kmer;

/// The code of an extension without a neighbour.
pub const NO_NEIGHBOUR: u8 = 4;

/// The key with the letter of a digit behind it, and without its first letter.
pub fn key_behind(key: Kmer, k: u32, digit: u8) -> Kmer
    requires k { IsKmerLength k }
    requires digit { digit < 4 }
    ensures { result ≡ key % 4 ^ (k - 1) * 4 + digit }
{
    let rest = key.bits & ((1 << (2 * (k - 1))) - 1);
    Kmer {
        bits: rest * 4 + digit as u64,
    }
}
