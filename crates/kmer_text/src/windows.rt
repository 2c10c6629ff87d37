//! The k-mers of a line, one after another.

ghost use Rattle.std.specs.Prelude.{◌≡◌, ℕ, ◌+◌, ◌^◌, ◌<◌, ◌≤◌, true, length, map, IsTrue};
ghost use Rattle.std.specs.Iterator.{YieldsFirst, item_count};
ghost use Rattle.kmer_text.specs.Letters.{are_letters};
ghost use Rattle.kmer_text.specs.Kmers.{IsKmerLength, number_of};
ghost use Rattle.kmer_text.specs.Windows.{windows};

use crate::Kmer;
use crate::kmer::{digit, packed};
use std::marker::Model;

/// The windows that a line has left, each packed from the one before it. A contract sees the list of their numbers.
#[derive(Drop)]
pub struct Windows<'a> {
    line: &'a [u8],
    k: u32,
    // where the next window's last letter stands
    last: usize,
    // the letters of the next window but the last
    front: u64,
}

impl<'a> Model for Windows<'a> {
    ghost use Rattle.std.specs.Prelude.{◌≡◌, ℕ, ◌+◌, ◌-◌, ◌≤◌, List, map, drop, slice_range};
    ghost use Rattle.kmer_text.specs.Kmers.{IsKmerLength, number_of};
    ghost use Rattle.kmer_text.specs.Windows.{windows};

    ghost Value = { List ℕ };

    ghost view = { λ w. map number_of (windows w.k (drop (w.last + 1 - w.k) w.line.now)) };

    ghost invariant = { λ w. IsKmerLength w.k × (w.k ≤ w.last + 1)
        × (w.front ≡ number_of (slice_range w.line.now (w.last + 1 - w.k) w.last)) };
}

impl<'a> Windows<'a> {
    /// The windows of `k` letters of a line, from its front on.
    pub fn new(line: &'a [u8], k: u32) -> Windows<'a>
        requires k { IsKmerLength k }
        requires letters { IsTrue (are_letters line.now) }
        ensures { result ≡ map number_of (windows k line.now) }
    {
        let before = k as usize - 1;
        Windows {
            line,
            k,
            last: before,
            front: packed(&line[..before.min(line.len())]),
        }
    }
}

impl<'a> Iterator for Windows<'a> {
    type Item = Kmer;

    ghost next_gives = { YieldsFirst (λ w. w) };

    ghost remaining = { item_count (λ w. w) };

    fn next(&mut self) -> Option<Kmer> {
        let letter = *self.line.get(self.last)?;
        let bits = self.front * 4 + digit(letter);
        self.front = bits & ((1 << (2 * (self.k - 1))) - 1);
        self.last += 1;
        Some(Kmer { bits })
    }
}
