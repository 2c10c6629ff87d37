//! What each kind of step tells, in the words of the segments.

ghost use Rattle.std.specs.Prelude.{◌≡◌, ℕ, List, [], Some, None, slice_index, slice_set, false};
ghost use Rattle.bcl_event.specs.History.{state_after, events, IsLegal};
ghost use Rattle.bcl_phase.specs.Views.{get as a_get, put as a_put, atomic as an_atomic, begins, cuts, cut, takes, spent, words_of, knowing, loosened, loose_after, mended, gone_on, one_more, unless_won};
ghost use Rattle.bcl_phase.specs.Told.{Took, Told, Ends, HomeTold};

use crate::{Learns, Phased, Promise};
use atomic_table::{Join, Split};
use bcl_segment::Tells;
use std::marker::PhantomData;

/// A get of a pass.
pub(crate) struct Gets<R, M> {
    of: PhantomData<(R, M)>,
}

impl<R: Phased, M: Learns<R::State, R::Call, R::Note>> Tells<R::View> for Gets<R, M> {
    ghost then = { λ i _ _ v n w. (k : R.Key) → v.key ≡ Some k → Took R.ranks R.start R.next R.permits k a_get v w × Told R.start R.next k v M.then n w × (w.found ≡ one_more v.found i n) };
}

/// A put of a pass.
pub(crate) struct Puts<R, M> {
    of: PhantomData<(R, M)>,
}

impl<R: Phased, M: Learns<R::State, R::Call, R::Note>> Tells<R::View> for Puts<R, M> {
    ghost then = { λ _ _ _ v n w. (k : R.Key) → v.key ≡ Some k → Took R.ranks R.start R.next R.permits k a_put v w × Told R.start R.next k v M.then n w × (w.found ≡ v.found) };
}

/// An exchange of a pass.
pub(crate) struct Tries<R, M> {
    of: PhantomData<(R, M)>,
}

impl<R: Phased, M: Learns<R::State, R::Call, R::Note>> Tells<R::View> for Tries<R, M> {
    ghost then = { λ i old _ v n w. (k : R.Key) → v.key ≡ Some k → Took R.ranks R.start R.next R.permits k an_atomic v w × Told R.start R.next k v M.then n w × (w.found ≡ unless_won old v.found i n) };
}

/// A fetch of a pass.
pub(crate) struct Changes<R, M> {
    of: PhantomData<(R, M)>,
}

impl<R: Phased, M: Learns<R::State, R::Call, R::Note>> Tells<R::View> for Changes<R, M> {
    ghost then = { λ _ _ _ v n w. (k : R.Key) → v.key ≡ Some k → Took R.ranks R.start R.next R.permits k an_atomic v w × Told R.start R.next k v M.then n w × (w.found ≡ v.found) };
}

/// A get of a home.
pub(crate) struct HomeGets<R, M> {
    of: PhantomData<(R, M)>,
}

impl<R: Phased, M: Learns<R::State, R::Call, R::Note>> Tells<R::View> for HomeGets<R, M> {
    ghost then = { λ i _ _ v n w. (k : R.Key) → v.key ≡ Some k → HomeTold R.start R.next R.fits k a_get v i (λ m. m) (λ m t did. M.then m t did R.rest) n w };
}

/// A put of a home.
pub(crate) struct HomePuts<R, M> {
    of: PhantomData<(R, M)>,
}

impl<R: Phased, M: Learns<R::State, R::Call, R::Note>> Tells<R::View> for HomePuts<R, M> {
    ghost then = { λ i word _ v n w. (k : R.Key) → v.key ≡ Some k → HomeTold R.start R.next R.fits k a_put v i (λ _. word) (λ m t did. M.then m t did R.rest) n w };
}

/// A home learns its words.
pub(crate) struct Knows<R> {
    of: PhantomData<R>,
}

impl<R: Phased> Tells<R::View> for Knows<R> {
    ghost then = { λ _ _ _ v _ w. (ws : List ℕ) × (w ≡ knowing (Some ws) v) × ((vs : List ℕ) → v.words ≡ Some vs → ws ≡ vs) × ((k : R.Key) → v.key ≡ Some k → R.fits k v.promise ws (state_after (R.next k) (R.start k) v.seen) []) };
}

/// A home looks at a word that it knows.
pub(crate) struct Looks<R> {
    of: PhantomData<R>,
}

impl<R: Phased> Tells<R::View> for Looks<R> {
    ghost then = { λ i _ _ v n w. (w ≡ v) × (n ≡ slice_index (words_of v) i) };
}

/// A home forgets its words.
pub(crate) struct Forgets<R> {
    of: PhantomData<R>,
}

impl<R: Phased> Tells<R::View> for Forgets<R> {
    ghost then = { λ _ _ _ v _ w. w ≡ knowing None v };
}

/// A home lets its words be loose.
pub(crate) struct Loosens<R> {
    of: PhantomData<R>,
}

impl<R: Phased> Tells<R::View> for Loosens<R> {
    ghost then = { λ _ _ _ v _ w. (ws : List ℕ) × (w ≡ loosened ws v) × ((vs : List ℕ) → v.words ≡ Some vs → ws ≡ vs) × ((k : R.Key) → v.key ≡ Some k → R.fits k v.promise ws (state_after (R.next k) (R.start k) v.seen) []) };
}

/// A get of a home whose words are loose.
pub(crate) struct LooseGets<R> {
    of: PhantomData<R>,
}

impl<R: Phased> Tells<R::View> for LooseGets<R> {
    ghost then = { λ i _ _ v n w. (w ≡ loose_after a_get (words_of v) v) × (n ≡ slice_index (words_of v) i) };
}

/// A put of a home whose words are loose.
pub(crate) struct LoosePuts<R> {
    of: PhantomData<R>,
}

impl<R: Phased> Tells<R::View> for LoosePuts<R> {
    ghost then = { λ i word _ v _ w. w ≡ loose_after a_put (slice_set (words_of v) i word) v };
}

/// A put of a home by which its words fit again, and which makes calls.
pub(crate) struct MendPuts<R, M> {
    of: PhantomData<(R, M)>,
}

impl<R: Phased, M: Learns<R::State, R::Call, R::Note>> Tells<R::View> for MendPuts<R, M> {
    ghost then = { λ i word _ v _ w. (k : R.Key) → v.key ≡ Some k → (did : List R.Call) × M.then word (state_after (R.next k) (R.start k) v.seen) did R.rest × (w ≡ record (gone_on a_put v (events (R.next k) v.rank (state_after (R.next k) (R.start k) v.seen) did) (slice_set (words_of v) i word)) { loose = false }) × IsLegal (R.next k) (R.start k) w.seen };
}

/// A home whose words fit again.
pub(crate) struct Mends<R> {
    of: PhantomData<R>,
}

impl<R: Phased> Tells<R::View> for Mends<R> {
    ghost then = { λ _ _ _ v _ w. w ≡ mended (words_of v) v };
}

/// A home begins a phase under the promise P.
pub(crate) struct Begins<R, P> {
    of: PhantomData<(R, P)>,
}

impl<R: Phased, P: Promise> Tells<R::View> for Begins<R, P> {
    ghost then = { λ _ _ _ v _ w. (w ≡ begins P.CODE v) × ((k : R.Key) → v.key ≡ Some k → IsLegal (R.next k) (R.start k) v.seen) };
}

/// A home whose passes came back is told of the phase, which is over.
pub(crate) struct Closes<R> {
    of: PhantomData<R>,
}

impl<R: Phased> Tells<R::View> for Closes<R> {
    ghost then = { λ _ _ _ v _ w. (w ≡ begins 0 v) × ((k : R.Key) → v.key ≡ Some k → Ends R.ranks R.start R.next R.permits k v) };
}

/// The same of a home whose words are loose from then on.
pub(crate) struct ClosesLoose<R> {
    of: PhantomData<R>,
}

impl<R: Phased> Tells<R::View> for ClosesLoose<R> {
    ghost then = { λ _ _ _ v _ w. (ws : List ℕ) × (w ≡ loosened ws (begins 0 v)) × ((k : R.Key) → v.key ≡ Some k → Ends R.ranks R.start R.next R.permits k v × R.fits k v.promise ws (state_after (R.next k) (R.start k) v.seen) []) };
}

/// A home cuts a pass for the next rank.
pub(crate) struct Cuts<R> {
    of: PhantomData<R>,
}

impl<R: Phased> Split<R::View> for Cuts<R> {
    ghost left = { cuts };

    ghost right = { cut R.rest };
}

/// A home takes back the pass of its last rank.
pub(crate) struct Takes<R> {
    of: PhantomData<R>,
}

impl<R: Phased> Join<R::View> for Takes<R> {
    ghost both = { takes };

    ghost spent = { spent R.rest };
}
