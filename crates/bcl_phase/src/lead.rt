//! Who has begun a phase, and ends it.

ghost use Rattle.std.specs.Prelude.{◌≡◌, [], false};
ghost use Rattle.bcl_segment.specs.Parts.{key_of, layout_of, heads_of};
ghost use Rattle.bcl_segment.specs.Resting.{resting_view};
ghost use Rattle.bcl_phase.specs.Seats.{IsRestingHome, IsLaid};

use crate::Phased;
use bcl_segment::{Layout, Resting, Segments, Spot};

/// A container in a phase: each rank has a pass. Ranks share the lead by `&`, and each call of a pass is given it.
#[derive(Drop)]
pub struct Lead<R: Phased> {
    pub(crate) segments: Segments<R>,
    pub(crate) home: Resting<R>,
    pub(crate) layout: Layout,
    pub(crate) heads: u32,
    ghost seated: { IsRestingHome segments home },
    ghost shape: { layout ≡ layout_of segments },
    ghost front: { heads ≡ heads_of segments },
    pub ghost laid: { IsLaid (R.sound (key_of segments)) (R.heads (key_of segments)) (R.layout (key_of segments)) (heads_of segments) (layout_of segments) },
    pub ghost shared: { (resting_view home).passes ≡ layout.ranks },
    pub ghost whole: { (resting_view home).loose ≡ false },
    pub ghost none_back: { (resting_view home).back ≡ [] },
}

impl<R: Phased> Lead<R> {
    ghost use Rattle.bcl_phase.specs.Parts.{HasSpot};

    /// Brings the word at a spot near, for a step that comes soon, by one load. It tells nothing, and no pass counts it.
    #[inline(always)]
    pub fn prefetch(&self, spot: Spot)
        requires spot { HasSpot self.now spot }
    {
        self.segments.prefetch(spot);
    }
}
