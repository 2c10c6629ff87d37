//! The options behind a mode.

ghost use Rattle.std.specs.Prelude.{◌≡◌, ◌≢◌, List, ◌∷◌, [], ◌++◌, ℕ, ◌<◌, length, map, string_bytes, IsTrue, IfSome, IfNone};
ghost use Rattle.std.specs.List.Sorted.{IsPermutation};
ghost use Rattle.bcl_settings.specs.Options.{choice_word, option_words, OptionInRange, options, NamesOptions};
ghost use Rattle.bcl_settings.specs.Settings.{SaysRanksAlone};
ghost use Rattle.bcl_settings.specs.declared.settings.Choice.{Choice as AnyChoice};
ghost use Rattle.bcl_settings.specs.declared.options.CommandOption.{CommandOption as AnyOption};
ghost use Rattle.bcl_settings.specs.declared.options.Options.{Options as AnyOptions};

use crate::Choice;
use crate::number::number_to;

/// The most ranks.
const MAX_RANKS: u32 = 64;

/// An option, with its value.
#[derive(Clone, Copy)]
pub(crate) enum CommandOption {
    Ranks(u32),
    Min(u64),
    Promise(Choice),
    Hist,
}

/// What options say. What none of them says is `None`.
#[derive(Clone, Copy)]
pub(crate) struct Options {
    pub ranks: Option<u32>,
    pub min: Option<u64>,
    pub choice: Option<Choice>,
    pub hist: bool,
}

fn choice_in(word: &str) -> Option<Choice>
    ensures some { IfSome result (λ choice. word.now ≡ choice_word choice) }
    ensures none { IfNone result ((choice : AnyChoice) → word.now ≢ choice_word choice) }
{
    if word == "own" {
        return Some(Choice::Own);
    }
    if word == "any" {
        return Some(Choice::Any);
    }
    None
}

/// An option whose value is a word of its own.
fn valued(name: &str, value: &str) -> Option<CommandOption>
    ensures some { IfSome result (λ option. OptionInRange option × (name.now ∷ value.now ∷ [] ≡ option_words option)) }
    ensures none { IfNone result ((option : AnyOption) → OptionInRange option → name.now ∷ value.now ∷ [] ≢ option_words option) }
{
    if name == "--ranks" {
        return Some(CommandOption::Ranks(number_to(value, MAX_RANKS)?));
    }
    if name == "--min" {
        return Some(CommandOption::Min(u64::from(number_to(value, u32::MAX)?)));
    }
    if name == "--promise" {
        return Some(CommandOption::Promise(choice_in(value)?));
    }
    None
}

/// The option in front, and the words behind it.
fn option_in(words: &[String]) -> Option<(CommandOption, &[String])>
    ensures some { IfSome result (λ r. OptionInRange r.0 × (map string_bytes words.now ≡ option_words r.0 ++ map string_bytes r.1.now)) }
    ensures none { IfNone result ((option : AnyOption) (behind : List (List ℕ)) → OptionInRange option → map string_bytes words.now ≢ option_words option ++ behind) }
{
    let (name, rest) = words.split_first()?;
    if name.as_str() == "--hist" {
        return Some((CommandOption::Hist, rest));
    }
    let (value, rest) = rest.split_first()?;
    Some((valued(name.as_str(), value.as_str())?, rest))
}

impl Options {
    const NONE: Options = Options {
        ranks: None,
        min: None,
        choice: None,
        hist: false,
    };

    /// Whether none is said but the ranks, or none at all.
    pub(crate) fn says_ranks_alone(self) -> bool
        ensures yes { IsTrue result → SaysRanksAlone self }
        ensures no { SaysRanksAlone self → IsTrue result }
    {
        self.min.is_none() && self.choice.is_none() && !self.hist
    }

    /// The same and an option more, unless one like it is said.
    fn with(self, option: CommandOption) -> Option<Options>
        ensures some { IfSome result (λ more. IsPermutation (options more) (options self ++ option ∷ [])) }
        ensures none { IfNone result ((more : AnyOptions) (behind : List AnyOption) → IsPermutation (options more) (options self ++ option ∷ behind) → ⊥) }
    {
        match option {
            CommandOption::Ranks(n) => match self.ranks {
                Some(_) => None,
                None => Some(Options {
                    ranks: Some(n),
                    ..self
                }),
            },
            CommandOption::Min(n) => match self.min {
                Some(_) => None,
                None => Some(Options {
                    min: Some(n),
                    ..self
                }),
            },
            CommandOption::Promise(choice) => match self.choice {
                Some(_) => None,
                None => Some(Options {
                    choice: Some(choice),
                    ..self
                }),
            },
            CommandOption::Hist if self.hist => None,
            CommandOption::Hist => Some(Options { hist: true, ..self }),
        }
    }
}

/// What the words say, all of them.
pub(crate) fn options_in(words: &[String]) -> Option<Options>
    ensures some { IfSome result (NamesOptions (map string_bytes words.now)) }
    ensures none { IfNone result ((said : AnyOptions) → NamesOptions (map string_bytes words.now) said → ⊥) }
{
    let mut said = Options::NONE;
    let mut rest = words;
    while !rest.is_empty() {
        let (option, behind) = option_in(rest)?;
        said = said.with(option)?;
        rest = behind;
    }
    Some(said)
}
