//! The steps of a pass: each is one atomic step on the word at a spot.
//!
//! All have the same conditions: the segments have the spot, the pass is of the lead, and the container shows by `Moves`
//! that its own rule allows the step. Each tells how the view has changed (`Took`), and of the history as it was, the
//! calls that the step makes there and what `M` picks (`Told`). A get and a lost exchange add the word that they found
//! to those that the pass has found. `about` is for the proof alone, which may name it where
//! it picks.

ghost use Rattle.std.specs.Prelude.{◌≡◌, ◌≢◌, ◌+◌, ◌-◌, ◌%◌, ◌^◌, ◌==◌, min, bit_or, IfOk, IfErr, if◌then◌else◌};
ghost use Rattle.bcl_segment.specs.Steps.{found_by};
ghost use Rattle.bcl_phase.specs.Views.{get as a_get, put as a_put, atomic as an_atomic, one_more};
ghost use Rattle.bcl_phase.specs.Rule.{Moves};
ghost use Rattle.bcl_phase.specs.Told.{Took, Told, tried};
ghost use Rattle.bcl_phase.specs.Parts.{lead_key, lead_word, pass_view, HasSpot, IsOf};

use crate::told::{Changes, Gets, Puts, Tries};
use crate::{Lead, Learns, Pass, Phased, Promise};
use bcl_segment::Spot;

impl<R: Phased, P: Promise> Pass<R, P> {
    /// The word at a spot, by one load. It raises `gets` by one.
    #[inline(always)]
    pub fn get<M: Learns<R::State, R::Call, R::Note>, E>(
        &mut self,
        lead: &Lead<R>,
        spot: Spot,
        about: &E,
    ) -> u64
        requires spot { HasSpot lead.now spot }
        requires of { IsOf self.old lead.now }
        requires step { Moves R.next R.permits R.fits (lead_key lead.now) (pass_view self.old).promise (pass_view self.old).rank (pass_view self.old).note (lead_word lead.now spot) (λ n. n) M.then }
        ensures told { Told R.start R.next (lead_key lead.now) (pass_view self.old) M.then result (pass_view self.new) }
        ensures took { Took R.ranks R.start R.next R.permits (lead_key lead.now) a_get (pass_view self.old) (pass_view self.new) }
        ensures found { (pass_view self.new).found ≡ one_more (pass_view self.old).found (lead_word lead.now spot) result }
        ensures of { IsOf self.new lead.now }
    {
        lead.segments.get::<Gets<R, M>>(&mut self.seat, spot)
    }

    /// Puts a word at a spot, by one store, and tells nothing of the old word. It raises `puts` by one.
    #[inline(always)]
    pub fn put<M: Learns<R::State, R::Call, R::Note>, E>(
        &mut self,
        lead: &Lead<R>,
        spot: Spot,
        word: u64,
        about: &E,
    )
        requires spot { HasSpot lead.now spot }
        requires of { IsOf self.old lead.now }
        requires step { Moves R.next R.permits R.fits (lead_key lead.now) (pass_view self.old).promise (pass_view self.old).rank (pass_view self.old).note (lead_word lead.now spot) (λ _. word) (λ _. M.then word) }
        ensures told { Told R.start R.next (lead_key lead.now) (pass_view self.old) M.then word (pass_view self.new) }
        ensures took { Took R.ranks R.start R.next R.permits (lead_key lead.now) a_put (pass_view self.old) (pass_view self.new) }
        ensures found { (pass_view self.new).found ≡ (pass_view self.old).found }
        ensures of { IsOf self.new lead.now }
    {
        lead.segments.put::<Puts<R, M>>(&mut self.seat, spot, word);
    }

    /// Compares and exchanges the word at a spot: where it is `old` it becomes `new`. `Err` has the word that was found,
    /// and nothing was changed. Won or lost, it raises `atomics` by one.
    #[inline(always)]
    pub fn cas<M: Learns<R::State, R::Call, R::Note>, E>(
        &mut self,
        lead: &Lead<R>,
        spot: Spot,
        old: u64,
        new: u64,
        about: &E,
    ) -> Result<u64, u64>
        requires spot { HasSpot lead.now spot }
        requires of { IsOf self.old lead.now }
        requires step { Moves R.next R.permits R.fits (lead_key lead.now) (pass_view self.old).promise (pass_view self.old).rank (pass_view self.old).note (lead_word lead.now spot) (λ n. if n == old then new else n) M.then }
        ensures ok { IfOk result (λ n. n ≡ old) }
        ensures err { IfErr result (λ n. n ≢ old) }
        ensures told { Told R.start R.next (lead_key lead.now) (pass_view self.old) M.then (found_by result) (pass_view self.new) }
        ensures took { Took R.ranks R.start R.next R.permits (lead_key lead.now) an_atomic (pass_view self.old) (pass_view self.new) }
        ensures found { (pass_view self.new).found ≡ tried (pass_view self.old).found (lead_word lead.now spot) result }
        ensures of { IsOf self.new lead.now }
    {
        lead.segments
            .cas::<Tries<R, M>>(&mut self.seat, spot, old, new)
    }

    /// Adds to the word at a spot, and answers the old word. The sum wraps at 2^64. It raises `atomics` by one.
    #[inline(always)]
    pub fn fetch_add<M: Learns<R::State, R::Call, R::Note>, E>(
        &mut self,
        lead: &Lead<R>,
        spot: Spot,
        word: u64,
        about: &E,
    ) -> u64
        requires spot { HasSpot lead.now spot }
        requires of { IsOf self.old lead.now }
        requires step { Moves R.next R.permits R.fits (lead_key lead.now) (pass_view self.old).promise (pass_view self.old).rank (pass_view self.old).note (lead_word lead.now spot) (λ n. (n + word) % 2 ^ 64) M.then }
        ensures told { Told R.start R.next (lead_key lead.now) (pass_view self.old) M.then result (pass_view self.new) }
        ensures took { Took R.ranks R.start R.next R.permits (lead_key lead.now) an_atomic (pass_view self.old) (pass_view self.new) }
        ensures found { (pass_view self.new).found ≡ (pass_view self.old).found }
        ensures of { IsOf self.new lead.now }
    {
        lead.segments
            .fetch_add::<Changes<R, M>>(&mut self.seat, spot, word)
    }

    /// Subtracts from the word at a spot, and answers the old word. The difference wraps at 2^64. It raises `atomics`
    /// by one.
    #[inline(always)]
    pub fn fetch_sub<M: Learns<R::State, R::Call, R::Note>, E>(
        &mut self,
        lead: &Lead<R>,
        spot: Spot,
        word: u64,
        about: &E,
    ) -> u64
        requires spot { HasSpot lead.now spot }
        requires of { IsOf self.old lead.now }
        requires step { Moves R.next R.permits R.fits (lead_key lead.now) (pass_view self.old).promise (pass_view self.old).rank (pass_view self.old).note (lead_word lead.now spot) (λ n. (n + (2 ^ 64 - word)) % 2 ^ 64) M.then }
        ensures told { Told R.start R.next (lead_key lead.now) (pass_view self.old) M.then result (pass_view self.new) }
        ensures took { Took R.ranks R.start R.next R.permits (lead_key lead.now) an_atomic (pass_view self.old) (pass_view self.new) }
        ensures found { (pass_view self.new).found ≡ (pass_view self.old).found }
        ensures of { IsOf self.new lead.now }
    {
        lead.segments
            .fetch_sub::<Changes<R, M>>(&mut self.seat, spot, word)
    }

    /// Sets the bits of `word` in the word at a spot, and answers the old word. It raises `atomics` by one.
    #[inline(always)]
    pub fn fetch_or<M: Learns<R::State, R::Call, R::Note>, E>(
        &mut self,
        lead: &Lead<R>,
        spot: Spot,
        word: u64,
        about: &E,
    ) -> u64
        requires spot { HasSpot lead.now spot }
        requires of { IsOf self.old lead.now }
        requires step { Moves R.next R.permits R.fits (lead_key lead.now) (pass_view self.old).promise (pass_view self.old).rank (pass_view self.old).note (lead_word lead.now spot) (λ n. bit_or n word) M.then }
        ensures told { Told R.start R.next (lead_key lead.now) (pass_view self.old) M.then result (pass_view self.new) }
        ensures took { Took R.ranks R.start R.next R.permits (lead_key lead.now) an_atomic (pass_view self.old) (pass_view self.new) }
        ensures found { (pass_view self.new).found ≡ (pass_view self.old).found }
        ensures of { IsOf self.new lead.now }
    {
        lead.segments
            .fetch_or::<Changes<R, M>>(&mut self.seat, spot, word)
    }

    /// Makes the word at a spot the lesser of itself and `word`, and answers the old word. It raises `atomics` by one.
    #[inline(always)]
    pub fn fetch_min<M: Learns<R::State, R::Call, R::Note>, E>(
        &mut self,
        lead: &Lead<R>,
        spot: Spot,
        word: u64,
        about: &E,
    ) -> u64
        requires spot { HasSpot lead.now spot }
        requires of { IsOf self.old lead.now }
        requires step { Moves R.next R.permits R.fits (lead_key lead.now) (pass_view self.old).promise (pass_view self.old).rank (pass_view self.old).note (lead_word lead.now spot) (λ n. min n word) M.then }
        ensures told { Told R.start R.next (lead_key lead.now) (pass_view self.old) M.then result (pass_view self.new) }
        ensures took { Took R.ranks R.start R.next R.permits (lead_key lead.now) an_atomic (pass_view self.old) (pass_view self.new) }
        ensures found { (pass_view self.new).found ≡ (pass_view self.old).found }
        ensures of { IsOf self.new lead.now }
    {
        lead.segments
            .fetch_min::<Changes<R, M>>(&mut self.seat, spot, word)
    }
}
