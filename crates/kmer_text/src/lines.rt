//! A text, cut into its lines.

ghost use Rattle.std.specs.Prelude.{◌≡◌, ℕ, ◌+◌, ◌-◌, ◌^◌, ◌<◌, ◌≤◌, ◌↔◌, List, length, map, take, drop, slice_range, slice_get, position, IfOk, Some, IsErrOf, All};
ghost use Rattle.std.specs.List.{position_or_len};
ghost use Rattle.std.specs.Str.Lines.{strip_carriage_return};
ghost use Rattle.kmer_text.specs.Lines.{lines, is_newline};
ghost use Rattle.kmer_text.specs.declared.lines.CutFault.TheVariants as faults;

use std::alloc::{AllocError, AllocFailed, Global};
use std::marker::Model;

/// The most lines of an input.
pub const MAX_LINES: usize = 1 << 22;

/// Why a text could not be cut.
#[derive(Clone, Copy, Debug, PartialEq, Eq, Hash)]
pub enum CutFault {
    NoMemory,
    TooManyLines,
}

impl From<AllocError> for CutFault {
    ghost from_gives = { λ _ e. e ≡ faults.NoMemory };

    fn from(_: AllocError) -> Self {
        CutFault::NoMemory
    }
}

impl<T: Drop> From<AllocFailed<T>> for CutFault {
    ghost from_gives = { λ _ e. e ≡ faults.NoMemory };

    fn from(_: AllocFailed<T>) -> Self {
        CutFault::NoMemory
    }
}

/// Where a line lies in the text, without its line end.
#[derive(Clone, Copy, Debug)]
struct Span {
    start: usize,
    end: usize,
}

/// A text and where its lines lie. A contract sees the list of its lines.
#[derive(Drop)]
pub struct Lines {
    text: Vec<u8>,
    spans: Vec<Span>,
}

impl Model for Lines {
    ghost use Rattle.std.specs.Prelude.{ℕ, ◌≤◌, ◌^◌, List, length, map, slice_range, All};

    ghost Value = { List (List ℕ) };

    ghost view = { λ a. map (λ s. slice_range a.text.items s.start s.end) a.spans.items };

    ghost invariant = { λ a. (length a.spans.items ≤ 2 ^ 22)
        × All (λ s. (s.start ≤ s.end) × (s.end ≤ length a.text.items)) a.spans.items };
}

fn newline_in(text: &[u8]) -> Option<usize>
    ensures { result ≡ position is_newline text.now }
{
    text.iter().position(|byte| *byte == b'\n')
}

/// The place of the first newline from a place on, or the length of the text.
fn line_end(text: &[u8], from: usize) -> usize
    requires { from ≤ length text.now }
    ensures place { result ≡ from + position_or_len is_newline (drop from text.now) }
    ensures fits { result ≤ length text.now }
{
    match newline_in(&text[from..]) {
        Some(skipped) => from + skipped,
        None => text.len(),
    }
}

/// Where the line that lies there ends without a carriage return.
fn trimmed(text: &[u8], start: usize, end: usize) -> usize
    requires order { start ≤ end }
    requires fits { end ≤ length text.now }
    ensures order { start ≤ result }
    ensures fits { result ≤ end }
    ensures line { slice_range text.now start result ≡ strip_carriage_return (slice_range text.now start end) }
{
    if start < end && text[end - 1] == b'\r' {
        end - 1
    } else {
        end
    }
}

/// How many lines a text has.
fn count_lines(text: &[u8]) -> usize
    ensures { result ≡ length (lines text.now) }
{
    let mut count = 0;
    let mut start = 0;
    while start < text.len() {
        start = line_end(text, start) + 1;
        count += 1;
    }
    count
}

/// Where the lines of a text lie, of which there are `count`.
fn spans_of(alloc: Global, text: &[u8], count: usize) -> Result<Vec<Span>, AllocError>
    requires { count ≡ length (lines text.now) }
    ensures lines { IfOk result (λ v. map (λ s. slice_range text.now s.start s.end) v.items ≡ lines text.now) }
    ensures fits { IfOk result (λ v. All (λ s. (s.start ≤ s.end) × (s.end ≤ length text.now)) v.items) }
{
    let mut spans = Vec::with_capacity(alloc, count)?;
    let mut start = 0;
    while start < text.len() {
        let end = line_end(text, start);
        spans.push(Span {
            start,
            end: trimmed(text, start, end),
        })?;
        start = end + 1;
    }
    Ok(spans)
}

impl Lines {
    /// Cuts a text at each newline. The rest behind the last one is a line where it isn't empty, and each line loses one
    /// carriage return at its end. `TooManyLines` takes no memory.
    pub fn cut(alloc: Global, bytes: Vec<u8>) -> Result<Lines, CutFault>
        ensures lines { IfOk result (λ all. all ≡ lines bytes.items) }
        ensures too_many { IsErrOf result CutFault.TooManyLines ↔ (2 ^ 22 < length (lines bytes.items)) }
    {
        let count = count_lines(&bytes);
        if count > MAX_LINES {
            return Err(CutFault::TooManyLines);
        }
        let spans = spans_of(alloc, &bytes, count)?;
        Ok(Lines { text: bytes, spans })
    }

    /// How many lines there are, empty ones counted.
    pub fn count(&self) -> u32
        ensures count { result ≡ length self.now }
        ensures few { length self.now ≤ 2 ^ 22 }
    {
        self.spans.len() as u32
    }

    /// The line at a place, from 0, without its line end.
    pub fn line(&self, i: u32) -> &[u8]
        requires { i < length self.now }
        ensures { slice_get self.now i ≡ Some result.now }
    {
        let span = self.spans[i as usize];
        &self.text[span.start..span.end]
    }
}
