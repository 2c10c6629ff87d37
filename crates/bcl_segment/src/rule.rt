//! What the words of segments keep.

use atomic_table::TableRule;

/// A rule of a table without slots, which names its view and its key, so that [`Segments`](crate::Segments) and
/// [`Seat`](crate::Seat) have one parameter.
///
/// `holds` of the table rule is the fact about the words and all views, and `first` is the view of the first seat.
pub trait Rule: TableRule<(), Self::View, Self::Key> {
    /// What a seat knows. No value of it is ever made.
    type View;
    /// What is fixed when the segments are made, as a shape or first contents.
    type Key;
}
