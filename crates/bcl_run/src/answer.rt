//! The text that an input asks for with its book, or why it is refused.

ghost use Rattle.std.specs.Prelude.{◌≡◌, ◌^◌, ◌<◌, ◌≤◌, length, All, IsTrue, IfOk, IfErr, Some};
ghost use Rattle.kmer_text.specs.Kmers.{IsKmerLength};
ghost use Rattle.kmer_text.specs.Letters.{are_letters};
ghost use Rattle.kmer_rows.specs.Count.{count_text};
ghost use Rattle.kmer_rows.specs.Counts.{AreCounts};
ghost use Rattle.bcl_run.specs.Verdict.{Text, counted, walked, verdict};
ghost use Rattle.bcl_settings.specs.Settings.{IsAsked};
ghost use Rattle.bcl_run.specs.Book.{IsCountOf, IsNodesOf, IsBookOf};
ghost use Rattle.bcl_run.specs.Owed.{Excuses};

use crate::Book;
use bcl_message::Stop;
use bcl_phase::Gate;
use bcl_settings::Settings;
use bcl_words::NoMemory;
use kmer_count::{CountPlan, count};
use kmer_rows::rows_over_ranks;
use kmer_text::{Kmer, Lines, check_letters, check_nodes};
use kmer_walk::{contigs, text_of};
use std::alloc::Global;
use std::marker::Sync;
use std::thread::Threads;

/// The most bytes of an input.
pub const MAX_BYTES: usize = 1 << 26;

/// What an input is answered with.
#[derive(Drop)]
pub(crate) struct Answered {
    pub(crate) text: Vec<u8>,
    pub(crate) book: Book,
}

/// The text of counts of the lines, each rank that of a part of them.
fn rows_of<H: Threads + Sync>(
    rt: &H,
    alloc: Global,
    sorted: &[(Kmer, u64)],
    lines: &Lines,
    k: u32,
    ranks: u32,
    least: u64,
) -> Result<Vec<u8>, NoMemory>
    requires k { IsKmerLength k }
    requires least { 1 ≤ least }
    requires letters { All (λ line. IsTrue (are_letters line)) lines.now }
    requires counts { AreCounts k lines.now sorted.now }
    ensures text { IfOk result (λ text. text.items ≡ count_text k least lines.now) }
{
    rows_over_ranks(rt, alloc, sorted, k, least, ranks)
}

/// The text of a count of the bytes over ranks, and its book.
fn counted<H: Threads + Sync, G: Gate>(
    rt: &H,
    alloc: Global,
    k: u32,
    ranks: u32,
    min: u64,
    bytes: Vec<u8>,
    gate: &G,
) -> Result<Answered, Stop>
    requires k { IsKmerLength k }
    requires ranks { (1 ≤ ranks) × (ranks ≤ 64) }
    requires least { min ≡ 1 }
    requires short { length bytes.items ≤ 2 ^ 26 }
    ensures text { IfOk result (λ a. counted k min bytes.items ≡ Text a.text.items) }
    ensures book { IfOk result (λ a. IsCountOf k ranks bytes.items a.book) }
    ensures stop { IfErr result (Excuses (counted k min bytes.items)) }
{
    let lines = Lines::cut(alloc, bytes)?;
    let windows = check_letters(&lines, k)?;
    let plan = CountPlan {
        k,
        ranks,
        min,
        windows,
    };
    let counts = count(rt, alloc, &lines, &plan, gate)?;
    let text = rows_of(rt, alloc, &counts.sorted, &lines, k, ranks, min)?;
    Ok(Answered {
        text,
        book: Book::Count(counts.closed),
    })
}

/// The contigs of the bytes over ranks, one a line, and their book.
fn walked<H: Threads + Sync, G: Gate>(
    rt: &H,
    alloc: Global,
    k: u32,
    ranks: u32,
    bytes: Vec<u8>,
    gate: &G,
) -> Result<Answered, Stop>
    requires k { IsKmerLength k }
    requires ranks { (1 ≤ ranks) × (ranks ≤ 64) }
    requires short { length bytes.items ≤ 2 ^ 26 }
    ensures text { IfOk result (λ a. walked k bytes.items ≡ Text a.text.items) }
    ensures book { IfOk result (λ a. IsNodesOf k ranks bytes.items a.book) }
    ensures stop { IfErr result (Excuses (walked k bytes.items)) }
{
    let lines = Lines::cut(alloc, bytes)?;
    check_nodes(&lines, k)?;
    let found = contigs(rt, alloc, &lines, k, ranks, gate)?;
    let text = text_of(alloc, &found.texts)?;
    Ok(Answered {
        text,
        book: Book::Nodes(found.closed),
    })
}

/// The text that the settings ask for of these bytes, and its book.
pub(crate) fn answer<H: Threads + Sync, G: Gate>(
    rt: &H,
    alloc: Global,
    settings: &Settings,
    bytes: Vec<u8>,
    gate: &G,
) -> Result<Answered, Stop>
    requires asked { IsAsked settings.now }
    requires short { length bytes.items ≤ 2 ^ 26 }
    ensures text { IfOk result (λ a. verdict (Some settings.now) bytes.items ≡ Text a.text.items) }
    ensures book { IfOk result (λ a. IsBookOf settings.now bytes.items a.book) }
    ensures stop { IfErr result (Excuses (verdict (Some settings.now) bytes.items)) }
{
    match *settings {
        Settings::Count { k, ranks, min, .. } => counted(rt, alloc, k, ranks, min, bytes, gate),
        Settings::Contigs { k, ranks, .. } => walked(rt, alloc, k, ranks, bytes, gate),
        Settings::Drill { .. } => unreachable!(),
    }
}
