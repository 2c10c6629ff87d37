//! A rank's part of the walks: from each start of its block of lines.

ghost use Rattle.std.specs.Prelude.{◌≡◌, ◌<◌, ◌^◌, ℕ, [], true, All, length, map, OnOk, IsErrOf};
ghost use Rattle.bcl_phase.specs.Parts.{lead_view};
ghost use Rattle.bcl_map.specs.Parts.{lead_key, pass_view, IsOf};
ghost use Rattle.kmer_paths.specs.Contigs.{is_start, contig, text_of};
ghost use Rattle.kmer_paths.specs.declared.fault.WalkFault.TheVariants as faults;
ghost use Rattle.kmer_walk.specs.Finds.{Asks};
ghost use Rattle.kmer_walk.specs.Texts.{AreTexts, MakesWalks};

use crate::nodes::{Finder, Nodes};
use crate::trail::push_contig;
use bcl_phase::Kit;
use kmer_paths::{MAX_TEXT, WalkFault};
use std::alloc::Global;

// Texts one behind another, and where each ends.
#[derive(Drop)]
pub(crate) struct Texts {
    pub(crate) bytes: Vec<u8>,
    pub(crate) ends: Vec<usize>,
}

// Walks from these starts. It answers `TooLong` where the contigs, with a newline behind each, are too long.
fn walk_starts(
    alloc: Global,
    nodes: &Nodes,
    pass: &mut Finder,
    starts: &[u32],
    texts: &mut Texts,
) -> Result<(), WalkFault>
    requires of { IsOf pass.old nodes.now.lead.now }
    requires asks { Asks (lead_view nodes.now.lead.now.lead).start (pass_view pass.old) }
    requires starts { All (λ start. (start < length nodes.now.lines.now) × (is_start nodes.now.k nodes.now.lines.now start ≡ true)) starts.now }
    requires empty { (texts.old.bytes.items ≡ []) × (texts.old.ends.items ≡ []) }
    ensures texts { OnOk result (AreTexts (map (contig nodes.now.k nodes.now.lines.now) starts.now) texts.new.bytes.items texts.new.ends.items) }
    ensures too_long { IsErrOf result faults.TooLong → 2 ^ 26 < length (text_of (map (contig nodes.now.k nodes.now.lines.now) starts.now)) }
    ensures no_conflict { (n : ℕ) → IsErrOf result (faults.Conflict n) → ⊥ }
    ensures walks { OnOk result (MakesWalks nodes.now.k nodes.now.lines.now (lead_key nodes.now.lead.now) starts.now (pass_view pass.old) (pass_view pass.new)) }
    ensures of { OnOk result (IsOf pass.new nodes.now.lead.now) }
{
    let mut room = MAX_TEXT;
    for i in 0..starts.len() {
        if room == 0 {
            return Err(WalkFault::TooLong);
        }
        let begin = texts.bytes.len();
        push_contig(alloc, nodes, pass, starts[i], room - 1, &mut texts.bytes)?;
        let end = texts.bytes.len();
        texts.ends.push(end)?;
        room -= end - begin + 1;
    }
    Ok(())
}

// What a rank needs to walk from its starts.
#[derive(Drop)]
pub(crate) struct Walker<'a> {
    pub(crate) alloc: Global,
    pub(crate) nodes: &'a Nodes<'a>,
    pub(crate) pass: Finder,
    pub(crate) starts: Vec<u32>,
    pub(crate) texts: Texts,
    pub(crate) walked: Result<(), WalkFault>,
}

impl<'a> Kit for Walker<'a> {
    ghost use Rattle.std.specs.Prelude.{◌≡◌, ◌<◌, ◌^◌, ℕ, [], true, All, length, map, OnOk, IsErrOf};
    ghost use Rattle.bcl_phase.specs.Parts.{lead_view};
    ghost use Rattle.bcl_map.specs.Parts.{lead_key, pass_view, IsOf};
    ghost use Rattle.kmer_paths.specs.Contigs.{is_start, contig, text_of};
    ghost use Rattle.kmer_paths.specs.declared.fault.WalkFault.TheVariants as faults;
    ghost use Rattle.kmer_walk.specs.Finds.{Asks};
    ghost use Rattle.kmer_walk.specs.Texts.{AreTexts, MakesWalks};

    ghost ready = { λ w. IsOf w.pass w.nodes.now.lead.now × Asks (lead_view w.nodes.now.lead.now.lead).start (pass_view w.pass)
        × All (λ start. (start < length w.nodes.now.lines.now) × (is_start w.nodes.now.k w.nodes.now.lines.now start ≡ true)) w.starts.items
        × (w.texts.bytes.items ≡ []) × (w.texts.ends.items ≡ []) };

    ghost step = { λ w v. let texts = map (contig w.nodes.now.k w.nodes.now.lines.now) w.starts.items in
        OnOk v.walked (AreTexts texts v.texts.bytes.items v.texts.ends.items)
        × (IsErrOf v.walked faults.TooLong → 2 ^ 26 < length (text_of texts))
        × ((n : ℕ) → IsErrOf v.walked (faults.Conflict n) → ⊥)
        × OnOk v.walked (MakesWalks w.nodes.now.k w.nodes.now.lines.now (lead_key w.nodes.now.lead.now) w.starts.items (pass_view w.pass) (pass_view v.pass))
        × OnOk v.walked (IsOf v.pass w.nodes.now.lead.now) };

    fn rank(&self) -> u32 {
        self.pass.rank()
    }

    fn part(&mut self) {
        self.walked = walk_starts(
            self.alloc,
            self.nodes,
            &mut self.pass,
            &self.starts,
            &mut self.texts,
        );
    }
}
