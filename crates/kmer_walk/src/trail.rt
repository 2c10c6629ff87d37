//! The walk from one start, by finds.

ghost use Rattle.std.specs.Prelude.{◌≡◌, ◌≢◌, ◌<◌, ◌≤◌, ◌++◌, ℕ, ◌∷◌, [], true, length, OnOk, IsErrOf};
ghost use Rattle.bcl_phase.specs.Parts.{lead_view};
ghost use Rattle.bcl_map.specs.Parts.{lead_key, pass_view, IsOf};
ghost use Rattle.kmer_text.specs.Kmers.{letter_of};
ghost use Rattle.kmer_paths.specs.Contigs.{is_start, contig};
ghost use Rattle.kmer_paths.specs.declared.fault.WalkFault.TheVariants as faults;
ghost use Rattle.kmer_walk.specs.Finds.{Asks};
ghost use Rattle.kmer_walk.specs.Texts.{MakesWalks};

use crate::nodes::{Finder, Nodes};
use kmer_paths::{NO_NEIGHBOUR, WalkFault, key_behind};
use kmer_text::node_of;
use std::alloc::Global;
use std::collections::BTreeSet;

/// The letter of a digit.
fn letter(digit: u8) -> u8
    requires digit { digit < 4 }
    ensures letter { result ≡ letter_of digit }
{
    match digit {
        0 => b'A',
        1 => b'C',
        2 => b'G',
        _ => b'T',
    }
}

/// Puts the contig of a start behind a text, where it has at most so many letters. No more than these are put.
///
/// A walk marks the lines that it comes to, so its work and its memory are in proportion to its own length.
pub(crate) fn push_contig(
    alloc: Global,
    nodes: &Nodes,
    pass: &mut Finder,
    start: u32,
    most: usize,
    text: &mut Vec<u8>,
) -> Result<(), WalkFault>
    requires of { IsOf pass.old nodes.now.lead.now }
    requires asks { Asks (lead_view nodes.now.lead.now.lead).start (pass_view pass.old) }
    requires place { start < length nodes.now.lines.now }
    requires start { is_start nodes.now.k nodes.now.lines.now start ≡ true }
    ensures contig { OnOk result (text.new.items ≡ text.old.items ++ contig nodes.now.k nodes.now.lines.now start) }
    ensures short { OnOk result (length (contig nodes.now.k nodes.now.lines.now start) ≤ most) }
    ensures too_long { IsErrOf result faults.TooLong → most < length (contig nodes.now.k nodes.now.lines.now start) }
    ensures no_conflict { (n : ℕ) → IsErrOf result (faults.Conflict n) → ⊥ }
    ensures walks { OnOk result (MakesWalks nodes.now.k nodes.now.lines.now (lead_key nodes.now.lead.now) (start ∷ []) (pass_view pass.old) (pass_view pass.new)) }
    ensures asks { OnOk result (Asks (lead_view nodes.now.lead.now.lead).start (pass_view pass.new)) }
    ensures of { OnOk result (IsOf pass.new nodes.now.lead.now) }
{
    let Some((first, node)) = node_of(nodes.lines, start, nodes.k) else {
        unreachable!()
    };
    let letters = nodes.k as usize;
    if most < letters {
        return Err(WalkFault::TooLong);
    }
    text.extend_from_slice(&nodes.lines.line(start)[..letters])?;
    let mut marks = BTreeSet::new(alloc);
    marks.insert(node.line)?;
    let mut key = first;
    let mut forward = node.forward;
    let mut left = most - letters;
    while forward != NO_NEIGHBOUR {
        key = key_behind(key, nodes.k, forward);
        let begins = pass.start(nodes.lead, &key);
        let Some(next) = nodes.find(pass, begins, key) else {
            break;
        };
        if !marks.insert(next.line)? {
            break;
        }
        if left == 0 {
            return Err(WalkFault::TooLong);
        }
        text.push(letter(forward))?;
        left -= 1;
        forward = next.forward;
    }
    Ok(())
}
