//! Lines of nodes: a key of K letters, a tab, a backward and a forward extension.

ghost use Rattle.std.specs.Prelude.{◌≡◌, ℕ, ◌+◌, ◌<◌, ◌≤◌, ◌↔◌, ◌==◌, List, length, take, slice_index, slice_get, IsTrue, IsOk, IsNone, IsErrOf, IfSome, None, Some};
ghost use Rattle.kmer_text.specs.Kmers.{IsKmerLength, number_of};
ghost use Rattle.kmer_text.specs.Letters.{are_letters};
ghost use Rattle.kmer_text.specs.Nodes.{is_extension, are_extensions, code_of, node_fault, line_fault, bad_node, line_at};
ghost use Rattle.kmer_text.specs.declared.fault.InputFault.{InputFault as AnyFault};

use crate::check::{are_letters, is_letter};
use crate::kmer::{digit, packed};
use crate::{InputFault, Kind, Kmer, Lines};

/// What one line says beside its key: its number, from 1, and the codes of its backward and forward extension. A code is
/// the digit of a letter, or 4 for F, which stands where there is no neighbour.
#[derive(Clone, Copy, Debug, PartialEq, Eq, Hash)]
pub struct Node {
    pub line: u64,
    pub back: u8,
    pub forward: u8,
    ghost codes: { (back ≤ 4) × (forward ≤ 4) },
}

fn is_extension(byte: u8) -> bool
    ensures { result ≡ is_extension byte }
{
    is_letter(byte) || byte == b'F'
}

/// The code of an extension.
fn code(byte: u8) -> u8
    ensures value { result ≡ code_of byte }
    ensures bound { result ≤ 4 }
{
    if byte == b'F' { 4 } else { digit(byte) as u8 }
}

/// The first fault of a line.
fn fault_of(line: &[u8], k: u32) -> Option<Kind>
    requires k { IsKmerLength k }
    ensures { result ≡ line_fault k line.now }
{
    let k = k as usize;
    if line.is_empty() {
        None
    } else if line.len() != k + 3 {
        Some(Kind::Length)
    } else if !are_letters(&line[..k]) {
        Some(Kind::Letter)
    } else if line[k] != b'\t' {
        Some(Kind::Tab)
    } else if !is_extension(line[k + 1]) || !is_extension(line[k + 2]) {
        Some(Kind::Extension)
    } else {
        None
    }
}

/// Whether each line is a node or empty. Else the first line that isn't, and its first fault: of the length, then of the
/// letters, the tab and the extensions.
pub fn check_nodes(lines: &Lines, k: u32) -> Result<(), InputFault>
    requires k { IsKmerLength k }
    ensures good { IsOk result ↔ (bad_node k lines.now ≡ None) }
    ensures bad { (fault : AnyFault) → IsErrOf result fault ↔ (bad_node k lines.now ≡ Some fault) }
{
    for i in 0..lines.count() {
        if let Some(kind) = fault_of(lines.line(i), k) {
            return Err(InputFault {
                line: i as u64 + 1,
                kind,
            });
        }
    }
    Ok(())
}

/// The key and the node of a line, by its place from 0. An empty line has none.
pub fn node_of(lines: &Lines, i: u32, k: u32) -> Option<(Kmer, Node)>
    requires k { IsKmerLength k }
    requires place { i < length lines.now }
    requires good { bad_node k lines.now ≡ None }
    ensures none { IsNone result ↔ (length (line_at lines.now i) ≡ 0) }
    ensures key { IfSome result (λ pair. pair.0 ≡ number_of (take k (line_at lines.now i))) }
    ensures line { IfSome result (λ pair. pair.1.line ≡ i + 1) }
    ensures back { IfSome result (λ pair. pair.1.back ≡ code_of (slice_index (line_at lines.now i) (k + 1))) }
    ensures forward { IfSome result (λ pair. pair.1.forward ≡ code_of (slice_index (line_at lines.now i) (k + 2))) }
{
    let line = lines.line(i);
    if line.is_empty() {
        return None;
    }
    let k = k as usize;
    let key = Kmer {
        bits: packed(&line[..k]),
    };
    let node = Node {
        line: i as u64 + 1,
        back: code(line[k + 1]),
        forward: code(line[k + 2]),
    };
    Some((key, node))
}
