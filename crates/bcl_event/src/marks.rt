//! The bits of a block of a filter: which a hash marks, and whether they are set.

ghost use Rattle.std.specs.Prelude.{◌≡◌, ◌<◌, ◌==◌, ◌||◌, ℕ};
ghost use Rattle.std.specs.List.{All, list_all, list_any};
ghost use Rattle.bcl_event.specs.Filter.{four_bits};
ghost use Rattle.bcl_event.specs.SeqFilter.{has_bit};

/// The four bits that a hash marks in its block, each below 64.
#[inline(always)]
pub fn bits_of(h: u64) -> [u64; 4]
    ensures bits { result ≡ four_bits h }
{
    [
        (h >> 58) % 64,
        (h >> 52) % 64,
        (h >> 46) % 64,
        (h >> 40) % 64,
    ]
}

/// Whether all these bits of a block are set. Condition: each is below 64.
#[inline(always)]
pub fn are_set(block: u64, bits: &[u64; 4]) -> bool
    requires low { All (λ bit. bit < 64) bits.now }
    ensures all { result ≡ list_all (has_bit block) bits.now }
{
    bits.iter().all(|bit| is_set(block, *bit))
}

#[inline(always)]
fn is_set(block: u64, bit: u64) -> bool
    requires low { bit < 64 }
    ensures set { result ≡ has_bit block bit }
{
    (block >> bit) & 1 == 1
}

/// The block with these bits set too. Condition: each is below 64.
#[inline(always)]
pub fn with_bits(block: u64, bits: &[u64; 4]) -> u64
    requires low { All (λ bit. bit < 64) bits.now }
    ensures bits { (bit : ℕ) → has_bit result bit ≡ (list_any (λ other. bit == other) bits.now || has_bit block bit) }
{
    with_bit(
        with_bit(with_bit(with_bit(block, bits[3]), bits[2]), bits[1]),
        bits[0],
    )
}

#[inline(always)]
fn with_bit(block: u64, bit: u64) -> u64
    requires low { bit < 64 }
    ensures bits { (other : ℕ) → has_bit result other ≡ ((other == bit) || has_bit block other) }
{
    block | 1 << bit
}
