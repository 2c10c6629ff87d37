//! Two objects side by side, as one.

ghost use Rattle.std.specs.Prelude.{◌≡◌, ◌+◌, ◌≤◌};
ghost use Rattle.bcl_words.specs.Pairs.{pair_count, part_of, joined, pair_words, pair_passes};

use crate::numbers::zeros_from;
use crate::object::Object;

const LOW: usize = 0xffff_ffff;

/// Two values: the words of the first, and then those of the second.
#[derive(Clone, Copy, Debug, PartialEq, Eq)]
pub struct Pair<A, B> {
    pub a: A,
    pub b: B,
}

impl<A: Object, B: Object> Object for Pair<A, B> {
    ghost use Rattle.bcl_words.specs.PairLaws.{pair_some, pair_shape, parts_pass, parts_same, parts_equal, first_fits, second_fits};
    ghost use Rattle.bcl_words.specs.PairValues.{same_pair};

    // the sum, and too many words where it might not fit a `usize`
    const WORDS: usize = ((A::WORDS & LOW) + (B::WORDS & LOW))
        | (A::WORDS & !LOW)
        | (B::WORDS & !LOW);

    ghost WORDS = { pair_count A.WORDS B.WORDS };

    ghost words = { λ p. pair_words A.WORDS B.WORDS A.passes B.passes (A.words p.a) (B.words p.b) };

    ghost passes = { pair_passes A.WORDS B.WORDS A.passes B.passes };

    ghost some_words = { pair_some A.WORDS B.WORDS A.some_words };

    ghost shape = { λ f.
        let fa = first_fits A.WORDS B.WORDS A.some_words f in
        let fb = second_fits A.WORDS B.WORDS B.some_words f in
        pair_shape A.WORDS B.WORDS A.passes B.passes f (A.shape fa) (B.shape fb) };

    ghost same = { λ f x y p q e.
        let fa = first_fits A.WORDS B.WORDS A.some_words f in
        let fb = second_fits A.WORDS B.WORDS B.some_words f in
        let px = parts_pass A.WORDS B.WORDS A.passes B.passes (A.words x.a) (B.words x.b) p in
        let py = parts_pass A.WORDS B.WORDS A.passes B.passes (A.words y.a) (B.words y.b) q in
        let parts = parts_same A.WORDS B.WORDS A.passes B.passes f (A.shape fa) (B.shape fb) (A.words x.a) (B.words x.b) (A.words y.a) (B.words y.b) p q e in
        same_pair x y (A.same fa x.a y.a px.0 py.0 parts.0) (B.same fb x.b y.b px.1 py.1 parts.1) };

    ghost equal = { λ f x y p q.
        let fa = first_fits A.WORDS B.WORDS A.some_words f in
        let fb = second_fits A.WORDS B.WORDS B.some_words f in
        let px = parts_pass A.WORDS B.WORDS A.passes B.passes (A.words x.a) (B.words x.b) p in
        let py = parts_pass A.WORDS B.WORDS A.passes B.passes (A.words y.a) (B.words y.b) q in
        parts_equal A.WORDS B.WORDS A.passes B.passes f (A.shape fa) (B.shape fb) (A.words x.a) (B.words x.b) (A.words y.a) (B.words y.b) (A.eq x.a y.a) (B.eq x.b y.b) p q
        (A.equal fa x.a y.a px.0 py.0) (B.equal fb x.b y.b px.1 py.1) };

    fn to_words(&self) -> [u64; 8] {
        let first = self.a.to_words();
        let second = self.b.to_words();
        join(A::WORDS, B::WORDS, &first, &second)
    }

    fn from_words(w: &[u64; 8]) -> Option<Self> {
        if !zeros_from(w, A::WORDS + B::WORDS) {
            return None;
        }
        let a = A::from_words(&part(w, 0, A::WORDS))?;
        let b = B::from_words(&part(w, A::WORDS, B::WORDS))?;
        Some(Pair { a, b })
    }
}

/// So many words from a place on, and zeros.
fn part(w: &[u64; 8], place: usize, count: usize) -> [u64; 8]
    requires { place + count ≤ 8 }
    ensures { result ≡ part_of place count w.now }
{
    let mut out = [0; 8];
    out[..count].copy_from_slice(&w[place..place + count]);
    out
}

/// The first `a` words of one, then the first `b` of the other, and zeros.
fn join(a: usize, b: usize, v: &[u64; 8], w: &[u64; 8]) -> [u64; 8]
    requires { a + b ≤ 8 }
    ensures { result ≡ joined a b v.now w.now }
{
    let mut out = [0; 8];
    out[..a].copy_from_slice(&v[..a]);
    out[a..a + b].copy_from_slice(&w[..b]);
    out
}
