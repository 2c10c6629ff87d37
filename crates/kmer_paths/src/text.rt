//! The text of contigs.

ghost use Rattle.std.specs.Prelude.{◌≡◌, map, IfOk};
ghost use Rattle.kmer_paths.specs.Contigs.{text_of};

use bcl_words::NoMemory;
use std::alloc::Global;

/// The most bytes of a text of contigs, with a newline behind each.
pub const MAX_TEXT: usize = 1 << 26;

/// A line for each text.
pub fn text_of(alloc: Global, texts: &[Vec<u8>]) -> Result<Vec<u8>, NoMemory>
    ensures { IfOk result (λ all. all.items ≡ text_of (map (λ text. text.items) texts.now)) }
{
    let mut all = Vec::new(alloc);
    for text in texts {
        all.extend_from_slice(text)?;
        all.push(b'\n')?;
    }
    Ok(all)
}
