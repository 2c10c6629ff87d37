//! What a container says of itself.

ghost use Rattle.std.specs.Prelude.{◌≡◌, ℕ, Bool, true, List, [], ◌∷◌, ◌++◌, ◌<◌, length};
ghost use Rattle.bcl_segment.specs.declared.layout.Layout.{Layout};
ghost use Rattle.bcl_phase.specs.Views.{opened};
ghost use Rattle.bcl_phase.specs.Rule.{Kept};

use crate::{Promise, View};
use bcl_segment::Rule;

/// A container over segments of words: its sequential object, the calls that each promise permits, and what its words
/// mean.
///
/// One rule serves all containers, `Kept` of `specs/Rule.antt`: there is one history, legal for the sequential object,
/// of which each seat knows a beginning. Its `fits` is the container's own part, and is all that a container's steps
/// are proved against. An implementor gives the rule of its segments as
///
///     impl TableRule<(), View<Call, Reply, Note, Key>, Key> for Container {
///         ghost holds = { Kept ranks start next permits fits };
///         ghost first = { λ k. opened k (ranks k) rest };
///     }
///
/// and then the laws `from`, `back` and `opens` are the identity.
pub trait Phased: Rule<View = View<Self::Call, Self::Reply, Self::Note, <Self as Rule>::Key>> {
    type Call;

    type Reply;
    /// What the sequential object is in. No value of it is made.
    type State;
    /// A call in flight. No value of it is made.
    type Note;

    // How many ranks there are.
    ghost ranks: { Self.Key → ℕ };

    // How many head words its segments have, and how long they are.
    ghost heads: { Self.Key → ℕ };

    ghost layout: { Self.Key → Layout };

    // What else is known of a key, as that its types fit. It is shown once, as a container is made.
    ghost sound: { Self.Key → Bool };

    // The first contents.
    ghost start: { Self.Key → Self.State };

    // The sequential object: the reply to a call in a state, and the state after it.
    ghost next: { Self.Key → Self.State → Self.Call → Self.Reply × Self.State };

    // Whether a promise permits a rank a call.
    ghost permits: { Self.Key → ℕ → ℕ → Self.Call → Type 0 };

    // The first note: no call in flight, and nothing known of one before.
    ghost rest: { Self.Note };

    // The notes with no call in flight under a promise, whatever is known of calls before.
    ghost idle: { ℕ → Self.Note → Bool };

    // How the words, the state and the note of each live rank fit, under a promise.
    ghost fits: { Self.Key → ℕ → List ℕ → Self.State → List Self.Note → Type 0 };

    // The first note is one of them.
    ghost rests: { (p : ℕ) → idle p rest ≡ true };

    // One more rank comes, with no call in flight.
    ghost admits: { (k : Self.Key) (p : ℕ) (ws : List ℕ) (t : Self.State) (xs : List Self.Note) → length xs < ranks k → fits k p ws t xs → fits k p ws t (xs ++ rest ∷ []) };

    // The last rank goes, with no call in flight.
    ghost releases: { (k : Self.Key) (p : ℕ) (ws : List ℕ) (t : Self.State) (xs : List Self.Note) (y : Self.Note) → idle p y ≡ true → fits k p ws t (xs ++ y ∷ []) → fits k p ws t xs };

    // At home, where no rank is left, the promise is 0. From there a phase may begin under any promise.
    ghost begins: { (k : Self.Key) (q : ℕ) (ws : List ℕ) (t : Self.State) → fits k 0 ws t [] → fits k q ws t [] };

    // The rule of the segments is the one of all containers.
    ghost from: { (k : Self.Key) (s : _) → Self.TableRule.holds k s → Kept ranks start next permits fits k s };

    ghost back: { (k : Self.Key) (s : _) → Kept ranks start next permits fits k s → Self.TableRule.holds k s };

    ghost opens: { (k : Self.Key) → Self.TableRule.first k ≡ opened k (ranks k) rest };
}

/// What a phase leaves, whatever its promise, is as it has to be at home: it ends with no work on the words.
///
/// A container for which this is false ends its phases by [`Lead::end_loose`](crate::Lead::end_loose), and puts its words
/// in order itself.
pub trait Settles: Phased {
    // Where no rank is left, the words fit at home.
    ghost settles: { (k : Self.Key) (p : ℕ) (ws : List ℕ) (t : Self.State) → Self.Phased.fits k p ws t [] → Self.Phased.fits k 0 ws t [] };
}

/// The container's calls are proved under this promise, so that a phase may run under it.
pub trait Grants<P: Promise>: Phased {}
