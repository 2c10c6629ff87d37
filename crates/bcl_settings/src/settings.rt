//! The settings, and the words that ask for them.

ghost use Rattle.std.specs.Prelude.{◌≡◌, ℕ, List, Option, true, false, map, string_bytes, IfSome, IfNone};
ghost use Rattle.bcl_settings.specs.Settings.{Spells, Reads, NamesAny, choice_of};
ghost use Rattle.bcl_settings.specs.declared.settings.Settings.{Settings as AnySettings};
ghost use Rattle.bcl_settings.specs.declared.mode.Mode.{Mode as AnyMode};
ghost use Rattle.bcl_settings.specs.declared.options.Options.{Options as AnyOptions};

use crate::mode::{Mode, mode_in};
use crate::options::{Options, options_in};

/// The promise under which ranks work on the shared map.
#[derive(Clone, Copy, Debug, PartialEq, Eq, Hash)]
pub enum Choice {
    /// A rank changes the keys that it owns.
    Own,
    /// A rank changes any key.
    Any,
}

/// What the program is asked for.
#[derive(Clone, Copy, Debug, PartialEq, Eq, Hash)]
pub enum Settings {
    /// Count the k-mers of `k` letters that occur at least `min` times, with `ranks` ranks; `hist` asks for the
    /// histogram alone.
    Count {
        k: u32,
        ranks: u32,
        min: u64,
        choice: Choice,
        hist: bool,
    },
    /// Walk the contigs of nodes with keys of `k` letters, with `ranks` ranks.
    Contigs {
        k: u32,
        ranks: u32,
        choice: Choice,
    },
    /// Count the k-mers of `k` letters of `lines` lines that `number` determines, with `ranks` ranks. No words ask for
    /// it yet.
    Drill {
        number: u64,
        lines: u32,
        k: u32,
        ranks: u32,
        choice: Choice,
    },
}

/// The mode that the words name, and its options.
pub(crate) fn spelled(words: &[String]) -> Option<(Mode, Options)>
    ensures some { IfSome result (λ r. Spells (map string_bytes words.now) r.0 r.1) }
    ensures none { IfNone result ((mode : AnyMode) (said : AnyOptions) → Spells (map string_bytes words.now) mode said → ⊥) }
{
    let (mode, rest) = mode_in(words)?;
    Some((mode, options_in(rest)?))
}

/// Reads the words behind the program's name: so far `count K` or `contigs K`, with `--ranks N` behind it or not, with K
/// from 1 to 31 and N from 1 to 64. Each other list of words asks for nothing.
pub fn settings_of(words: &[String]) -> Option<Settings>
    ensures { Reads (map string_bytes words.now) result }
{
    let Some((mode, said)) = spelled(words) else {
        return None;
    };
    if !mode.is_offered(said) {
        return None;
    }
    mode.with_options(said)
}

/// Whether the words ask for a run in which a rank changes any key.
pub fn names_any(words: &[String]) -> bool
    ensures yes { result ≡ true → NamesAny (map string_bytes words.now) }
    ensures no { result ≡ false → NamesAny (map string_bytes words.now) → ⊥ }
{
    match settings_of(words) {
        Some(settings) => settings.choice() == Choice::Any,
        None => false,
    }
}

impl Settings {
    /// The promise under which its ranks work.
    fn choice(&self) -> Choice
        ensures { result ≡ choice_of self.now }
    {
        match *self {
            Settings::Count { choice, .. } => choice,
            Settings::Contigs { choice, .. } => choice,
            Settings::Drill { choice, .. } => choice,
        }
    }
}

/// No list of words can be read in two ways.
pub fn reads_once()
    ensures { (words : List (List ℕ)) (one other : Option AnySettings) → Reads words one → Reads words other → one ≡ other }
{}
