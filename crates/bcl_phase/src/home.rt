//! Who has a container alone.

ghost use Rattle.std.specs.Prelude.{◌≡◌, false};
ghost use Rattle.bcl_segment.specs.Parts.{key_of, layout_of, heads_of, view_of};
ghost use Rattle.bcl_phase.specs.Seats.{IsHomeSeat, IsLaid};

use crate::Phased;
use bcl_segment::{Layout, Seat, Segments, Spot};

/// The words of a container and their first seat.
#[derive(Drop)]
pub(crate) struct Owned<R: Phased> {
    pub(crate) segments: Segments<R>,
    pub(crate) seat: Seat<R>,
    pub(crate) layout: Layout,
    pub(crate) heads: u32,
    ghost seated: { IsHomeSeat segments seat },
    ghost shape: { layout ≡ layout_of segments },
    ghost front: { heads ≡ heads_of segments },
    pub ghost laid: { IsLaid (R.sound (key_of segments)) (R.heads (key_of segments)) (R.layout (key_of segments)) (heads_of segments) (layout_of segments) },
}

// The first word of all.
pub(crate) const FIRST: Spot = Spot::Head(0);

/// A container that one caller has alone: no pass is out.
#[derive(Drop)]
pub struct Home<R: Phased> {
    pub(crate) owned: Owned<R>,
    pub ghost alone: { (view_of owned.seat).passes ≡ 0 },
    pub ghost whole: { (view_of owned.seat).loose ≡ false },
    pub ghost at_home: { (view_of owned.seat).promise ≡ 0 },
}
