//! How segments are made, and their seats.

ghost use Rattle.std.specs.Prelude.{◌≡◌, ◌+◌, ◌<◌, ◌≤◌, ◌^◌, length, IfOk};
ghost use Rattle.bcl_segment.specs.Places.{places};

use crate::seat::Slotless;
use crate::{Layout, Rule, Seat};
use atomic_table::{Join, Split, Table};
use bcl_words::NoMemory;
use std::alloc::Global;

/// Atomic words under the rule `R`: shared head words, and behind them a segment of words for each rank.
///
/// A contract sees which table they are, the key of the rule, the layout and the number of head words. What the words
/// hold it sees through the rule alone, since any thread may change them. Threads share segments by `&`.
#[derive(Drop)]
pub struct Segments<R: Rule> {
    pub(crate) table: Table<(), R::View, R::Key, R, Global>,
    pub(crate) layout: Layout,
    pub(crate) heads: u32,
    ghost words: { table.shared.table_id.words ≡ heads + places layout },
    ghost some: { 0 < heads + places layout },
    ghost few: { heads + places layout ≤ 2 ^ 27 },
}

impl<R: Rule> Segments<R> {
    ghost use Rattle.bcl_segment.specs.Parts.{key_of, layout_of, heads_of, number_of, view_of, IsSeatOf, IsSameSeat};
    ghost use Rattle.bcl_segment.specs.Steps.{opened};
    ghost use Rattle.bcl_segment.specs.Allowed.{MaySplit, MayJoin};

    /// Segments that hold these words, and their first seat.
    ///
    /// `heads` is the number of head words. `words` has them first, and then the words of each rank's segment in the
    /// order of the ranks. `about` is the key, which the rule reads from then on. The words are copied into memory that
    /// is taken here, and the list is dropped at once. It makes no step.
    ///
    /// Condition: there are 1 to 64 ranks and 1 to 2^27 words, head words included, and the rule holds of these words
    /// and of the first seat's view.
    pub fn new(
        alloc: Global,
        layout: Layout,
        heads: u32,
        words: Vec<u64>,
        about: &R::Key,
    ) -> Result<(Segments<R>, Seat<R>), NoMemory>
        requires ranks { (1 ≤ layout.ranks) × (layout.ranks ≤ 64) }
        requires words { length words.items ≡ heads + places layout }
        requires count { (1 ≤ heads + places layout) × (heads + places layout ≤ 2 ^ 27) }
        requires rule { R.holds about.now (opened words.items (R.first about.now)) }
        ensures layout { IfOk result (λ r. layout_of r.0 ≡ layout) }
        ensures heads { IfOk result (λ r. heads_of r.0 ≡ heads) }
        ensures key { IfOk result (λ r. key_of r.0 ≡ about.now) }
        ensures view { IfOk result (λ r. view_of r.1 ≡ R.first about.now) }
        ensures number { IfOk result (λ r. number_of r.1 ≡ 0) }
        ensures seat { IfOk result (λ r. IsSeatOf r.1 r.0) }
    {
        let (table, seat) = Table::of_words(alloc, words.as_slice(), about)?;
        drop(words);
        Ok((
            Segments {
                table,
                layout,
                heads,
            },
            Seat {
                inner: Slotless { seat },
            },
        ))
    }

    /// Cuts a seat's view in two, and gives a new seat the second.
    ///
    /// `M` says how. One step, a load of word 0 whose number is dropped. Condition: the seat is of these segments, and
    /// the rule allows the split.
    pub fn split<M: Split<R::View>>(&self, seat: &mut Seat<R>) -> Seat<R>
        requires seat { IsSeatOf seat.old self.now }
        requires rule { MaySplit R.holds self.now seat.old (M.left (view_of seat.old)) (M.right (view_of seat.old)) }
        ensures right { view_of result ≡ M.right (view_of seat.old) }
        ensures left { view_of seat.new ≡ M.left (view_of seat.old) }
        ensures new { IsSeatOf result self.now }
        ensures same { IsSameSeat seat.old seat.new }
    {
        let other = self.table.shared.split_seat::<M>(&mut seat.inner.seat);
        Seat {
            inner: Slotless { seat: other },
        }
    }

    /// Joins the view of another seat to a seat's own. The other seat is gone, and its place keeps a spent view.
    ///
    /// `M` says how. One step, a load of word 0 whose number is dropped. Condition: both seats are of these segments,
    /// and the rule allows the join.
    pub fn join<M: Join<R::View>>(&self, seat: &mut Seat<R>, other: Seat<R>)
        requires seat { IsSeatOf seat.old self.now }
        requires other { IsSeatOf other self.now }
        requires rule { MayJoin R.holds self.now seat.old other (M.both (view_of seat.old) (view_of other)) M.spent }
        ensures both { view_of seat.new ≡ M.both (view_of seat.old) (view_of other) }
        ensures same { IsSameSeat seat.old seat.new }
    {
        self.table
            .shared
            .join_seat::<M>(&mut seat.inner.seat, other.inner.seat);
    }
}
