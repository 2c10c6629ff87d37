//! A mode and its numbers.

ghost use Rattle.std.specs.Prelude.{◌≡◌, ◌≢◌, ℕ, List, [], ◌∷◌, ◌++◌, map, string_bytes, codes, IsTrue, IfSome, IfNone};
ghost use Rattle.bcl_settings.specs.Settings.{mode_words, ModeInRange, with_options, IsOffered};
ghost use Rattle.bcl_settings.specs.declared.mode.Mode.{Mode as AnyMode};

use crate::number::{number_in, number_to};
use crate::options::Options;
use crate::{Choice, Settings};
use kmer_text::MAX_K;

/// The ranks where no word names their number.
const RANKS: u32 = 4;

/// The most lines of a drill.
const MAX_LINES: u32 = 65536;

/// A mode, with its numbers.
#[derive(Clone, Copy)]
pub(crate) enum Mode {
    Count { k: u32 },
    Contigs { k: u32 },
    Drill { number: u64, lines: u32, k: u32 },
}

/// A mode with one number.
fn mode_of(name: &str, number: &str) -> Option<Mode>
    ensures some { IfSome result (λ mode. ModeInRange mode × (name.now ∷ number.now ∷ [] ≡ mode_words mode)) }
    ensures none { IfNone result ((mode : AnyMode) → ModeInRange mode → name.now ∷ number.now ∷ [] ≢ mode_words mode) }
{
    if name == "count" {
        let k = number_to(number, MAX_K)?;
        return Some(Mode::Count { k });
    }
    if name == "contigs" {
        let k = number_to(number, MAX_K)?;
        return Some(Mode::Contigs { k });
    }
    None
}

/// A drill with its three numbers.
fn drill_of(number: &str, lines: &str, k: &str) -> Option<Mode>
    ensures some { IfSome result (λ mode. ModeInRange mode × (codes "drill" ∷ number.now ∷ lines.now ∷ k.now ∷ [] ≡ mode_words mode)) }
    ensures none { IfNone result ((mode : AnyMode) → ModeInRange mode → codes "drill" ∷ number.now ∷ lines.now ∷ k.now ∷ [] ≢ mode_words mode) }
{
    let number = number_in(number)?;
    let lines = number_to(lines, MAX_LINES)?;
    let k = number_to(k, MAX_K)?;
    Some(Mode::Drill { number, lines, k })
}

/// The mode in front, and the words behind it and its numbers.
pub(crate) fn mode_in(words: &[String]) -> Option<(Mode, &[String])>
    ensures some { IfSome result (λ r. ModeInRange r.0 × (map string_bytes words.now ≡ mode_words r.0 ++ map string_bytes r.1.now)) }
    ensures none { IfNone result ((mode : AnyMode) (behind : List (List ℕ)) → ModeInRange mode → map string_bytes words.now ≢ mode_words mode ++ behind) }
{
    let (name, rest) = words.split_first()?;
    let (number, rest) = rest.split_first()?;
    if name.as_str() != "drill" {
        return Some((mode_of(name.as_str(), number.as_str())?, rest));
    }
    let (lines, rest) = rest.split_first()?;
    let (k, rest) = rest.split_first()?;
    Some((drill_of(number.as_str(), lines.as_str(), k.as_str())?, rest))
}

impl Mode {
    /// The settings of the mode with these options, unless one of them is of another mode.
    pub(crate) fn with_options(self, said: Options) -> Option<Settings>
        ensures { result ≡ with_options self said }
    {
        let ranks = said.ranks.unwrap_or(RANKS);
        let choice = said.choice.unwrap_or(Choice::Own);
        let of_count = said.min.is_some() || said.hist;
        match self {
            Mode::Count { k } => Some(Settings::Count {
                k,
                ranks,
                min: said.min.unwrap_or(1),
                choice,
                hist: said.hist,
            }),
            Mode::Contigs { .. } | Mode::Drill { .. } if of_count => None,
            Mode::Contigs { k } => Some(Settings::Contigs { k, ranks, choice }),
            Mode::Drill { number, lines, k } => Some(Settings::Drill {
                number,
                lines,
                k,
                ranks,
                choice,
            }),
        }
    }

    /// Whether the mode is offered with these options.
    pub(crate) fn is_offered(self, said: Options) -> bool
        ensures yes { IsTrue result → IsOffered self said }
        ensures no { IsOffered self said → IsTrue result }
    {
        match self {
            Mode::Count { .. } | Mode::Contigs { .. } => said.says_ranks_alone(),
            Mode::Drill { .. } => false,
        }
    }
}
