//! K-mers and nodes as words.

ghost use Rattle.std.specs.Prelude.{◌≡◌};
ghost use Rattle.kmer_text.specs.NodeWords.{node_words, is_node};
ghost use Rattle.kmer_text.specs.NodeLaws.{node_shape, node_same, node_equal};
ghost use Rattle.bcl_words.specs.NumberLaws.{numbers_equal, two_some};

use crate::{Kmer, Node};
use bcl_words::{Object, zeros_from};

/// What a k-mer is packed into. A k-mer has the words of its bits, so this alone says how many it has.
type Bits = u64;

impl Object for Kmer {
    const WORDS: usize = <Bits as Object>::WORDS;

    ghost WORDS = { ⟦<Bits as Object>⟧.WORDS };

    ghost words = { ⟦<Bits as Object>⟧.words };

    ghost passes = { ⟦<Bits as Object>⟧.passes };

    ghost some_words = { ⟦<Bits as Object>⟧.some_words };

    ghost shape = { ⟦<Bits as Object>⟧.shape };

    ghost same = { ⟦<Bits as Object>⟧.same };

    ghost equal = { λ f x y p q. numbers_equal ⟦<Bits as Object>⟧.words x y (⟦<Bits as Object>⟧.same f x y p q) };

    fn to_words(&self) -> [u64; 8] {
        self.bits.to_words()
    }

    fn from_words(w: &[u64; 8]) -> Option<Kmer> {
        let bits = Bits::from_words(w)?;
        Some(Kmer { bits })
    }
}

#[tactic(auto, using(crate::proofs::NodesRead::node_read))]
impl Object for Node {
    const WORDS: usize = 2;

    ghost WORDS = { 2 };

    ghost words = { λ n. node_words n.line n.back n.forward };

    ghost passes = { is_node };

    ghost some_words = { two_some };

    ghost shape = { λ _ w p. node_shape w p };

    ghost same = { λ _ x y _ _ e. node_same x y e };

    ghost equal = { λ _ x y _ _. node_equal x y };

    fn to_words(&self) -> [u64; 8] {
        let codes = 8 * u64::from(self.back) + u64::from(self.forward);
        [self.line, codes, 0, 0, 0, 0, 0, 0]
    }

    fn from_words(w: &[u64; 8]) -> Option<Node> {
        let (back, forward) = (w[1] / 8, w[1] % 8);
        if zeros_from(w, 2) && back <= 4 && forward <= 4 {
            Some(Node {
                line: w[0],
                back: back as u8,
                forward: forward as u8,
            })
        } else {
            None
        }
    }
}
