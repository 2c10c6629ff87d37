//! Where the block of a hash stands.

ghost use Rattle.std.specs.Prelude.{◌≡◌, ◌≤◌, ◌<◌, ◌%◌, ◌^◌};
ghost use Rattle.bcl_segment.specs.Places.{places, word_at, IsSpot};

use bcl_segment::{Layout, Spot};

/// Where the block of a hash stands. There are no head words.
#[inline(always)]
pub(crate) fn block_of(layout: Layout, h: u64) -> Spot
    requires blocks { (1 ≤ places layout) × (places layout ≤ 2 ^ 27) }
    ensures spot { IsSpot 0 layout result }
    ensures word { word_at 0 layout result ≡ h % places layout }
    ensures within { h % places layout < places layout }
{
    let blocks = u64::from(layout.ranks * layout.per_rank);
    Spot::word((h % blocks) as u32)
}
