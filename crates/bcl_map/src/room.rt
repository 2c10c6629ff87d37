//! How many buckets a map of so many pairs should have.

ghost use Rattle.std.specs.Prelude.{◌≡◌, ◌≤◌, ◌+◌, ◌*◌, ◌^◌};
ghost use Rattle.bcl_map.specs.Room.{buckets};

/// How many buckets each rank has in a map with room for so many pairs: at least one, and over all ranks at least twice as
/// many as there are pairs. So no call is answered `Full`, and paths are short.
///
/// Condition: there are 1 to 64 ranks and at most 2^26 pairs.
pub fn buckets_for(ranks: u32, pairs: u32) -> u32
    requires ranks { (1 ≤ ranks) × (ranks ≤ 64) }
    requires pairs { pairs ≤ 2 ^ 26 }
    ensures buckets { result ≡ buckets ranks pairs }
    ensures some { 1 ≤ result }
    ensures few { ranks * result ≤ 2 * pairs + ranks }
{
    ((2 * pairs + (ranks - 1)) / ranks).max(1)
}
