//! A look at one bucket of a key's path: gets alone, whatever the call is.

ghost use Rattle.std.specs.Prelude.{◌≡◌, ◌≢◌, ◌+◌, ◌≤◌, true, false};
ghost use Rattle.bcl_words.specs.Words.{Fits, IsWords};
ghost use Rattle.bcl_phase.specs.Parts.{lead_key, lead_layout, lead_heads, pass_view, IsOf};
ghost use Rattle.bcl_map.specs.declared.look.Look.TheVariants.{Free};
ghost use Rattle.bcl_map.specs.Map as map;
ghost use Rattle.bcl_map.specs.Map.{path, size, IsShaped};
ghost use Rattle.bcl_map.specs.Notes.{Knows};
ghost use Rattle.bcl_map.specs.Finds.{reading, value_of};
ghost use Rattle.bcl_map.specs.Calls.{IsBucketAt};
ghost use Rattle.bcl_map.specs.Reaches.{KnowsOwn, HasPassed, IsMatching, IsFree, IsPast, Comes, Meets};
ghost use Rattle.bcl_map.specs.Looks.{Looks};

use crate::control::names_home;
use crate::map::Map;
use crate::walking::Walking;
use bcl_phase::{Lead, Pass, Promise};
use bcl_segment::Spot;
use bcl_words::{MergeLaw, Object};
use std::marker::Brand;

/// The control word of the bucket with this number on the path of a key, of which the walk may know that it is in use.
#[inline]
fn see<K: Object, V: Object, L: MergeLaw<V>, P: Promise, C: Walking>(
    pass: &mut Pass<Map<K, V, L>, P>,
    lead: &Lead<Map<K, V, L>>,
    at: u32,
    call: &C,
    key: &[u64; 8],
    number: u32,
) -> u64
    requires key { Fits K.WORDS }
    requires of { IsOf pass.old lead.now }
    requires shape { IsShaped K.WORDS V.WORDS (lead_heads lead.now) (lead_layout lead.now) (lead_key lead.now) }
    requires at { IsBucketAt (size K.WORDS V.WORDS) (lead_layout lead.now) at (path (lead_key lead.now) key.now number) }
    requires may { C.may (lead_key lead.now) P.CODE (pass_view pass.old).rank key.now }
    requires heading { HasPassed key.now number (pass_view pass.old) }
    ensures some { Knows key.now (number + 1) (pass_view pass.old).note.claims → result ≢ 0 }
    ensures free { result ≡ 0 → IsFree L.op (lead_key lead.now) (C.walker call.now key.now) key.now number (pass_view pass.old) (pass_view pass.new) }
    ensures used { result ≢ 0 → Meets L.op (lead_key lead.now) (C.walker call.now key.now) key.now number result (pass_view pass.old) (pass_view pass.new) }
    ensures of { IsOf pass.new lead.now }
    ensures gets { (pass_view pass.new).gets ≡ (pass_view pass.old).gets + 1 }
    ensures puts { (pass_view pass.new).puts ≡ (pass_view pass.old).puts }
    ensures atomics { (pass_view pass.new).atomics ≡ (pass_view pass.old).atomics }
{
    pass.get::<Brand, (C, [u64; 8], u32)>(lead, Spot::word_of(at, 0), &(*call, *key, number))
}

/// Whether the key of a bucket, whose home is that of this key, is this one: a get of each of its words, up to the first
/// that differs. There the bucket is passed.
#[inline]
fn has_key<K: Object, V: Object, L: MergeLaw<V>, P: Promise, C: Walking>(
    pass: &mut Pass<Map<K, V, L>, P>,
    lead: &Lead<Map<K, V, L>>,
    at: u32,
    call: &C,
    key: &[u64; 8],
    number: u32,
) -> bool
    requires key { Fits K.WORDS }
    requires words { IsWords K.WORDS key.now }
    requires of { IsOf pass.old lead.now }
    requires shape { IsShaped K.WORDS V.WORDS (lead_heads lead.now) (lead_layout lead.now) (lead_key lead.now) }
    requires at { IsBucketAt (size K.WORDS V.WORDS) (lead_layout lead.now) at (path (lead_key lead.now) key.now number) }
    requires may { C.may (lead_key lead.now) P.CODE (pass_view pass.old).rank key.now }
    requires matching { IsMatching key.now number 0 (pass_view pass.old) }
    requires own { KnowsOwn (pass_view pass.old) }
    ensures same { result ≡ true → Comes L.op (lead_key lead.now) (pass_view pass.old) (pass_view pass.new) × ((pass_view pass.new).note.claims ≡ reading key.now number (value_of (pass_view pass.new).note.claims)) }
    ensures other { result ≡ false → IsPast L.op (lead_key lead.now) (C.walker call.now key.now) key.now number (pass_view pass.old) (pass_view pass.new) }
    ensures of { IsOf pass.new lead.now }
    ensures gets { (pass_view pass.new).gets ≤ (pass_view pass.old).gets + K.WORDS }
    ensures rise { (pass_view pass.old).gets ≤ (pass_view pass.new).gets }
    ensures puts { (pass_view pass.new).puts ≡ (pass_view pass.old).puts }
    ensures atomics { (pass_view pass.new).atomics ≡ (pass_view pass.old).atomics }
{
    for j in 0..K::WORDS {
        let found = pass.get::<Brand, (C, [u64; 8], u32, usize)>(
            lead,
            Spot::word_of(at, 1 + j),
            &(*call, *key, number, j),
        );
        if found != key[j] {
            return false;
        }
    }
    true
}

/// What a look at a bucket finds.
pub(crate) enum Look {
    /// It is free.
    Free,
    /// It has the key.
    Here,
    /// It has another key.
    Passed,
}

/// Looks at the bucket with this number on the path of a key, whose home is the rank `home`.
///
/// Where it is free, no get follows that of its control word.
#[inline]
pub(crate) fn look_at<K: Object, V: Object, L: MergeLaw<V>, P: Promise, C: Walking>(
    pass: &mut Pass<Map<K, V, L>, P>,
    lead: &Lead<Map<K, V, L>>,
    at: u32,
    call: &C,
    key: &[u64; 8],
    number: u32,
    home: u32,
) -> Look
    requires key { Fits K.WORDS }
    requires words { IsWords K.WORDS key.now }
    requires of { IsOf pass.old lead.now }
    requires shape { IsShaped K.WORDS V.WORDS (lead_heads lead.now) (lead_layout lead.now) (lead_key lead.now) }
    requires at { IsBucketAt (size K.WORDS V.WORDS) (lead_layout lead.now) at (path (lead_key lead.now) key.now number) }
    requires may { C.may (lead_key lead.now) P.CODE (pass_view pass.old).rank key.now }
    requires heading { HasPassed key.now number (pass_view pass.old) }
    requires home { home ≡ map.home (lead_key lead.now) key.now }
    ensures looks { Looks L.op (lead_key lead.now) (C.walker call.now key.now) key.now number (pass_view pass.old) (pass_view pass.new) result }
    ensures some { Knows key.now (number + 1) (pass_view pass.old).note.claims → result ≢ Free }
    ensures of { IsOf pass.new lead.now }
    ensures gets { (pass_view pass.new).gets ≤ (pass_view pass.old).gets + (1 + K.WORDS) }
    ensures free { result ≡ Free → (pass_view pass.new).gets ≡ (pass_view pass.old).gets + 1 }
    ensures rise { (pass_view pass.old).gets + 1 ≤ (pass_view pass.new).gets }
    ensures puts { (pass_view pass.new).puts ≡ (pass_view pass.old).puts }
    ensures atomics { (pass_view pass.new).atomics ≡ (pass_view pass.old).atomics }
{
    let control = see(pass, lead, at, call, key, number);
    if control == 0 {
        return Look::Free;
    }
    if names_home(control, home) && has_key(pass, lead, at, call, key, number) {
        return Look::Here;
    }
    Look::Passed
}
