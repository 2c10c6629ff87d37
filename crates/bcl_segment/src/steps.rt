//! The one-sided operations: each is one atomic step on the word at a spot.
//!
//! All have the same conditions: the segments have the spot, the seat is of these segments, and the rule allows the
//! step, as `MayStep` says: whatever the words and the views are, the seat has a new view that keeps the rule, and what
//! `M` tells holds of it. What `M` tells is then known to the caller, and the seat keeps its number.

ghost use Rattle.std.specs.Prelude.{◌≡◌, ◌≢◌, ◌+◌, ◌-◌, ◌%◌, ◌<◌, ◌^◌, ◌==◌, min, bit_or, IfOk, IfErr, if◌then◌else◌};
ghost use Rattle.bcl_segment.specs.Steps.{found_by};
ghost use Rattle.bcl_segment.specs.Parts.{id_of, view_of, word_of, HasSpot, IsSeatOf, IsSameSeat};
ghost use Rattle.bcl_segment.specs.Allowed.{MayStep};

use crate::tells::Told;
use crate::{Rule, Seat, Segments, Spot, Tells};

impl<R: Rule> Segments<R> {
    // The number of the word at a spot. It is inlined into each step, with no test at run time but that of the spot.
    #[inline(always)]
    fn word(&self, spot: Spot) -> usize
        requires { HasSpot self.now spot }
        ensures word { result ≡ word_of self.now spot }
        ensures within { result < (id_of self.now).words }
    {
        let word = match spot {
            Spot::Head(i) => i,
            Spot::At(ptr) => self.heads + self.layout.place(ptr),
        };
        word as usize
    }

    /// Brings the word at a spot near, for a step that comes soon, by one load. It needs no seat and tells nothing.
    #[inline(always)]
    pub fn prefetch(&self, spot: Spot)
        requires spot { HasSpot self.now spot }
    {
        let _ = self.table.shared.peek(self.word(spot));
    }

    /// The word at a spot, by one load.
    #[inline(always)]
    pub fn get<M: Tells<R::View>>(&self, seat: &mut Seat<R>, spot: Spot) -> u64
        requires spot { HasSpot self.now spot }
        requires seat { IsSeatOf seat.old self.now }
        requires rule { MayStep R.holds self.now seat.old spot (λ n. n) (M.then (word_of self.now spot) 0 0 (view_of seat.old)) }
        ensures told { M.then (word_of self.now spot) 0 0 (view_of seat.old) result (view_of seat.new) }
        ensures same { IsSameSeat seat.old seat.new }
    {
        self.table
            .shared
            .load::<Told<M>>(&mut seat.inner.seat, self.word(spot))
    }

    /// Puts a word at a spot, by one store. It tells nothing of the old word.
    #[inline(always)]
    pub fn put<M: Tells<R::View>>(&self, seat: &mut Seat<R>, spot: Spot, word: u64)
        requires spot { HasSpot self.now spot }
        requires seat { IsSeatOf seat.old self.now }
        requires rule { MayStep R.holds self.now seat.old spot (λ _. word) (λ _. M.then (word_of self.now spot) word 0 (view_of seat.old) word) }
        ensures told { M.then (word_of self.now spot) word 0 (view_of seat.old) word (view_of seat.new) }
        ensures same { IsSameSeat seat.old seat.new }
    {
        self.table
            .shared
            .store::<Told<M>>(&mut seat.inner.seat, self.word(spot), word);
    }

    /// Compares and exchanges the word at a spot, in one step: where it is `old` it becomes `new`.
    ///
    /// `Ok` has the old word, which is `old`. `Err` has the word that was found, which differs from `old`, and nothing
    /// was changed.
    #[inline(always)]
    pub fn cas<M: Tells<R::View>>(
        &self,
        seat: &mut Seat<R>,
        spot: Spot,
        old: u64,
        new: u64,
    ) -> Result<u64, u64>
        requires spot { HasSpot self.now spot }
        requires seat { IsSeatOf seat.old self.now }
        requires rule { MayStep R.holds self.now seat.old spot (λ n. if n == old then new else n) (M.then (word_of self.now spot) old new (view_of seat.old)) }
        ensures ok { IfOk result (λ n. n ≡ old) }
        ensures err { IfErr result (λ n. n ≢ old) }
        ensures told { M.then (word_of self.now spot) old new (view_of seat.old) (found_by result) (view_of seat.new) }
        ensures same { IsSameSeat seat.old seat.new }
    {
        let found = self
            .table
            .shared
            .compare_exchange::<Told<M>>(&mut seat.inner.seat, self.word(spot), old, new);
        if found == old { Ok(found) } else { Err(found) }
    }

    /// Adds to the word at a spot, in one step, and answers the old word. The sum wraps at 2^64.
    #[inline(always)]
    pub fn fetch_add<M: Tells<R::View>>(&self, seat: &mut Seat<R>, spot: Spot, word: u64) -> u64
        requires spot { HasSpot self.now spot }
        requires seat { IsSeatOf seat.old self.now }
        requires rule { MayStep R.holds self.now seat.old spot (λ n. (n + word) % 2 ^ 64) (M.then (word_of self.now spot) word 0 (view_of seat.old)) }
        ensures told { M.then (word_of self.now spot) word 0 (view_of seat.old) result (view_of seat.new) }
        ensures same { IsSameSeat seat.old seat.new }
    {
        self.table
            .shared
            .fetch_add::<Told<M>>(&mut seat.inner.seat, self.word(spot), word)
    }

    /// Subtracts from the word at a spot, in one step, and answers the old word. The difference wraps at 2^64.
    #[inline(always)]
    pub fn fetch_sub<M: Tells<R::View>>(&self, seat: &mut Seat<R>, spot: Spot, word: u64) -> u64
        requires spot { HasSpot self.now spot }
        requires seat { IsSeatOf seat.old self.now }
        requires rule { MayStep R.holds self.now seat.old spot (λ n. (n + (2 ^ 64 - word)) % 2 ^ 64) (M.then (word_of self.now spot) word 0 (view_of seat.old)) }
        ensures told { M.then (word_of self.now spot) word 0 (view_of seat.old) result (view_of seat.new) }
        ensures same { IsSameSeat seat.old seat.new }
    {
        self.table
            .shared
            .fetch_sub::<Told<M>>(&mut seat.inner.seat, self.word(spot), word)
    }

    /// Sets the bits of `word` in the word at a spot, in one step, and answers the old word.
    #[inline(always)]
    pub fn fetch_or<M: Tells<R::View>>(&self, seat: &mut Seat<R>, spot: Spot, word: u64) -> u64
        requires spot { HasSpot self.now spot }
        requires seat { IsSeatOf seat.old self.now }
        requires rule { MayStep R.holds self.now seat.old spot (λ n. bit_or n word) (M.then (word_of self.now spot) word 0 (view_of seat.old)) }
        ensures told { M.then (word_of self.now spot) word 0 (view_of seat.old) result (view_of seat.new) }
        ensures same { IsSameSeat seat.old seat.new }
    {
        self.table
            .shared
            .fetch_or::<Told<M>>(&mut seat.inner.seat, self.word(spot), word)
    }

    /// Makes the word at a spot the lesser of itself and `word`, in one step, and answers the old word.
    #[inline(always)]
    pub fn fetch_min<M: Tells<R::View>>(&self, seat: &mut Seat<R>, spot: Spot, word: u64) -> u64
        requires spot { HasSpot self.now spot }
        requires seat { IsSeatOf seat.old self.now }
        requires rule { MayStep R.holds self.now seat.old spot (λ n. min n word) (M.then (word_of self.now spot) word 0 (view_of seat.old)) }
        ensures told { M.then (word_of self.now spot) word 0 (view_of seat.old) result (view_of seat.new) }
        ensures same { IsSameSeat seat.old seat.new }
    {
        self.table
            .shared
            .fetch_min::<Told<M>>(&mut seat.inner.seat, self.word(spot), word)
    }
}
