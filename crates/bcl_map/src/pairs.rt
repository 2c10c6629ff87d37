//! The pairs of a home that knows its words.

ghost use Rattle.std.specs.Prelude.{◌≡◌, ◌+◌, ◌<◌, ◌≤◌, [], length, true, Some, IfOk};
ghost use Rattle.bcl_words.specs.Words.{Fits};
ghost use Rattle.bcl_segment.specs.Places.{places as places_of};
ghost use Rattle.bcl_phase.specs.Parts.{home_view, home_words, home_key, home_layout, home_heads, IsSameHome};
ghost use Rattle.bcl_map.specs.Map.{places, IsShaped};
ghost use Rattle.bcl_map.specs.Fits.{Holds};
ghost use Rattle.bcl_map.specs.Closed.{object, pairs_to, in_words, contents};

use crate::map::Map;
use crate::walk::{bucket_at, in_buckets};
use bcl_phase::Home;
use bcl_segment::Spot;
use bcl_words::{MergeLaw, NoMemory, Object};
use std::alloc::Global;

/// The object whose words stand in a bucket from one of its words on.
fn read_object<T: Object, K: Object, V: Object, L: MergeLaw<V>>(
    home: &mut Home<Map<K, V, L>>,
    at: u32,
    first: usize,
) -> T
    requires fits { Fits T.WORDS }
    requires heads { home_heads home.old ≡ 0 }
    requires within { at + (first + T.WORDS) ≤ places_of (home_layout home.old) }
    requires known { (home_view home.old).words ≡ Some (home_words home.old) }
    requires long { at + (first + T.WORDS) ≤ length (home_words home.old) }
    requires passes { T.passes (object T.WORDS (home_words home.old) (at + first)) ≡ true }
    ensures words { T.words result ≡ object T.WORDS (home_words home.old) (at + first) }
    ensures view { home_view home.new ≡ home_view home.old }
    ensures same { IsSameHome home.old home.new }
{
    let mut words = [0u64; 8];
    for j in 0..T::WORDS {
        words[j] = home.look(Spot::word_of(at, first + j));
    }
    let Some(object) = T::from_words(&words) else {
        unreachable!()
    };
    object
}

/// The pairs, in the order of the buckets: a look at each word of them, and at the control word of each bucket. Where there
/// are `many` it takes the memory that they need, and no more.
pub(crate) fn list_pairs<K: Object, V: Object, L: MergeLaw<V>>(
    alloc: Global,
    home: &mut Home<Map<K, V, L>>,
    many: usize,
) -> Result<Vec<(K, V)>, NoMemory>
    requires key { Fits K.WORDS }
    requires value { Fits V.WORDS }
    requires shape { IsShaped K.WORDS V.WORDS (home_heads home.old) (home_layout home.old) (home_key home.old) }
    requires known { (home_view home.old).words ≡ Some (home_words home.old) }
    requires fit { Holds K.WORDS V.WORDS K.passes V.passes (home_key home.old) 0 (home_words home.old) (contents L.op (home_key home.old) (home_view home.old)) [] }
    ensures pairs { IfOk result (λ pairs. in_words K.words V.words pairs.items ≡ pairs_to K.WORDS V.WORDS (home_words home.old) (places (home_key home.old))) }
    ensures view { home_view home.new ≡ home_view home.old }
    ensures same { IsSameHome home.old home.new }
{
    let buckets = in_buckets::<K, V>(home.layout());
    let places = buckets.ranks * buckets.per_rank;
    let mut pairs = Vec::with_capacity(alloc, many)?;
    for place in 0..places {
        let at = bucket_at::<K, V>(place);
        if home.look(Spot::word_of(at, 0)) != 0 {
            let key = read_object::<K, K, V, L>(home, at, 1);
            let value = read_object::<V, K, V, L>(home, at, 1 + K::WORDS);
            pairs.push((key, value))?;
        }
    }
    Ok(pairs)
}
