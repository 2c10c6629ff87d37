//! The map of the nodes of lines, once all are stored, and its finds.

ghost use Rattle.std.specs.Prelude.{◌≡◌, ◌<◌, ◌^◌, ◌∷◌, [], None};
ghost use Rattle.bcl_words.specs.Numbers.{one_word};
ghost use Rattle.bcl_event.specs.declared.map.MapCall.TheVariants.{Find as a_find};
ghost use Rattle.bcl_phase.specs.Parts.{lead_view};
ghost use Rattle.bcl_map.specs.Calls.{start_at};
ghost use Rattle.bcl_map.specs.Parts.{lead_key, pass_view, IsOf};
ghost use Rattle.kmer_text.specs.Kmers.{IsKmerLength};
ghost use Rattle.kmer_text.specs.Nodes.{bad_node};
ghost use Rattle.kmer_walk.specs.Finds.{HasFirsts, IsFirstOf, Asks, Makes};

use bcl_map::{MapLead, MapPass, Start};
use bcl_merge::LeastWords;
use bcl_phase::Find;
use kmer_text::{Kmer, Lines, Node};

pub(crate) type Lead = MapLead<Kmer, Node, LeastWords>;

pub(crate) type Finder = MapPass<Find, Kmer, Node, LeastWords>;

/// Good lines, and the lead of a map that has the node of the first line of each key.
#[derive(Drop)]
pub(crate) struct Nodes<'a> {
    pub(crate) lead: &'a Lead,
    pub(crate) lines: &'a Lines,
    pub(crate) k: u32,
    ghost letters: { IsKmerLength k },
    ghost good: { bad_node k lines.now ≡ None },
    ghost firsts: { HasFirsts k lines.now (lead_key lead.now) (lead_view lead.now.lead).start },
}

impl<'a> Nodes<'a> {
    pub(crate) fn new(lead: &'a Lead, lines: &'a Lines, k: u32) -> Nodes<'a>
        requires letters { IsKmerLength k }
        requires good { bad_node k lines.now ≡ None }
        requires firsts { HasFirsts k lines.now (lead_key lead.now) (lead_view lead.now.lead).start }
        ensures lead { result.lead.now ≡ lead.now }
        ensures lines { result.lines.now ≡ lines.now }
        ensures k { result.k ≡ k }
    {
        Nodes { lead, lines, k }
    }

    /// The node of the first line of a key, if there is one.
    ///
    /// Condition: the start is that of the key, as a pass answers it.
    #[inline]
    pub(crate) fn find(&self, pass: &mut Finder, start: Start, key: Kmer) -> Option<Node>
        requires key { key < 4 ^ self.now.k }
        requires of { IsOf pass.old self.now.lead.now }
        requires asks { Asks (lead_view self.now.lead.now.lead).start (pass_view pass.old) }
        requires start { start ≡ start_at (lead_key self.now.lead.now) (one_word key) }
        ensures first { IsFirstOf self.now.k self.now.lines.now key result }
        ensures makes { Makes (lead_key self.now.lead.now) (a_find (one_word key) ∷ []) (pass_view pass.old) (pass_view pass.new) }
        ensures asks { Asks (lead_view self.now.lead.now.lead).start (pass_view pass.new) }
        ensures of { IsOf pass.new self.now.lead.now }
    {
        pass.find_from(self.lead, start, &key)
    }
}
