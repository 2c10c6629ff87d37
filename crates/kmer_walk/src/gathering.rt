//! The contigs of all ranks, each as a text of its own, in byte order.

ghost use Rattle.std.specs.Prelude.{◌≡◌, ◌<◌, ◌≤◌, ◌^◌, ◌-◌, ◌++◌, ℕ, List, min, OnOk, IfOk, IsErrOf, map};
ghost use Rattle.std.specs.List.{flat_map};
ghost use Rattle.kmer_paths.specs.Contigs.{in_byte_order};
ghost use Rattle.kmer_paths.specs.declared.fault.WalkFault.TheVariants as faults;
ghost use Rattle.kmer_walk.specs.Texts.{AreTexts, HaveTexts, size_of};

use crate::walker::Texts;
use bcl_words::NoMemory;
use kmer_paths::{MAX_TEXT, WalkFault};
use rayon::prelude::*;
use std::alloc::Global;
use std::marker::Sync;
use std::thread::Threads;

// How many bytes the texts of all parts have, with a newline behind each. More than 2^64 - 1 are counted as so many.
fn size_of(parts: &[Texts]) -> u64
    ensures size { result ≡ min (size_of parts.now) (2 ^ 64 - 1) }
{
    let mut size = 0u64;
    for part in parts {
        size = size.saturating_add(part.bytes.len() as u64);
        size = size.saturating_add(part.ends.len() as u64);
    }
    size
}

// Puts each text of a part.
fn push_texts(alloc: Global, part: &Texts, texts: &mut Vec<Vec<u8>>) -> Result<(), NoMemory>
    requires lie { (own : List (List ℕ)) × AreTexts own part.now.bytes.items part.now.ends.items }
    ensures put { OnOk result ((own : List (List ℕ)) → AreTexts own part.now.bytes.items part.now.ends.items → map (λ text. text.items) texts.new.items ≡ map (λ text. text.items) texts.old.items ++ own) }
{
    let mut begin = 0;
    for i in 0..part.ends.len() {
        let end = part.ends[i];
        texts.push(Vec::from_slice(alloc, &part.bytes[begin..end])?)?;
        begin = end;
    }
    Ok(())
}

// The texts of all parts, one part after another.
fn texts_of(alloc: Global, parts: &[Texts]) -> Result<Vec<Vec<u8>>, NoMemory>
    requires lie { (all : List (List (List ℕ))) × HaveTexts all parts.now }
    ensures texts { IfOk result (λ texts. (all : List (List (List ℕ))) → HaveTexts all parts.now → map (λ text. text.items) texts.items ≡ flat_map (λ own. own) all) }
{
    let mut texts = Vec::new(alloc);
    for part in parts {
        push_texts(alloc, part, &mut texts)?;
    }
    Ok(texts)
}

// Sorts texts: for one rank in one thread, for more side by side on all processors, however many the ranks are.
fn sort_texts<H: Threads + Sync>(rt: &H, texts: &mut [Vec<u8>], ranks: u32)
    ensures sorted { map (λ text. text.items) texts.new ≡ in_byte_order (map (λ text. text.items) texts.old) }
{
    if ranks == 1 {
        texts.sort_unstable();
    } else {
        par_sort_unstable(rt, texts);
    }
}

/// The texts of all parts in byte order, unless they are too long with a newline behind each. It never answers `Conflict`.
pub(crate) fn gathered<H: Threads + Sync>(
    rt: &H,
    alloc: Global,
    parts: &[Texts],
    ranks: u32,
) -> Result<Vec<Vec<u8>>, WalkFault>
    requires lie { (all : List (List (List ℕ))) × HaveTexts all parts.now }
    ensures texts { IfOk result (λ texts. (all : List (List (List ℕ))) → HaveTexts all parts.now → map (λ text. text.items) texts.items ≡ in_byte_order (flat_map (λ own. own) all)) }
    ensures short { OnOk result (size_of parts.now ≤ 2 ^ 26) }
    ensures too_long { IsErrOf result faults.TooLong → 2 ^ 26 < size_of parts.now }
    ensures no_conflict { (n : ℕ) → IsErrOf result (faults.Conflict n) → ⊥ }
{
    if size_of(parts) > MAX_TEXT as u64 {
        return Err(WalkFault::TooLong);
    }
    let mut texts = texts_of(alloc, parts)?;
    sort_texts(rt, texts.as_mut_slice(), ranks);
    Ok(texts)
}
