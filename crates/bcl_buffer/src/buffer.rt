//! A rank's buffer.

ghost use Rattle.std.specs.Prelude.{◌≡◌, ◌≢◌, ◌≤◌, ◌<◌, ◌+◌, ◌-◌, ◌^◌, ◌++◌, ◌↔◌, ℕ, [], ◌∷◌, min, true, All, length, replicate, OnOk, OnErr, IfOk};
ghost use Rattle.bcl_words.specs.Words.{Fits};
ghost use Rattle.bcl_segment.specs.Places.{places};
ghost use Rattle.bcl_buffer.specs.declared.buffer.State.TheVariants.{Filling, Turning, Exchanged};
ghost use Rattle.bcl_buffer.specs.Lanes.{lane, items, home_in};

use crate::lane::Lane;
use bcl_bucket::home_rank;
use bcl_segment::Layout;
use bcl_words::{NoMemory, Object, Pair};
use std::alloc::Global;
use std::marker::Model;

/// What a buffer is in.
#[derive(Clone, Copy, Debug, PartialEq, Eq)]
pub enum State {
    /// It collects pairs, each in the lane of its key's home.
    Filling,
    /// Its lanes change places with those of others.
    Turning,
    /// All its pairs are for its own rank.
    Exchanged,
}

/// Pairs that wait for the ranks of their keys' homes, in a lane for each rank. A contract sees its rank, its shape, its
/// state and its lanes.
#[derive(Drop)]
pub struct Buffer<K: Object, V: Object> {
    pub(crate) rank: u32,
    pub(crate) shape: Layout,
    pub(crate) state: State,
    pub(crate) lanes: Vec<Lane<Pair<K, V>>>,
}

impl<K: Object, V: Object> Model for Buffer<K, V> {
    ghost use Rattle.std.specs.Prelude.{◌≡◌, ◌≤◌, ◌<◌, ◌^◌, length};
    ghost use Rattle.bcl_words.specs.declared.pair.Pair.{Pair};
    ghost use Rattle.bcl_segment.specs.Places.{places};
    ghost use Rattle.bcl_buffer.specs.Lanes.{Lanes, IsPlaced, home_in};

    ghost Value = { Lanes (Pair K V) };

    ghost view = { λ b. record { rank = b.rank; shape = b.shape; state = b.state; lanes = b.lanes.items } };

    ghost invariant = { λ b. (length b.lanes.items ≡ b.shape.ranks) × (b.rank < b.shape.ranks) × (1 ≤ places b.shape) × (places b.shape ≤ 2 ^ 27)
        × IsPlaced (λ (p : Pair K V). home_in K.WORDS b.shape (K.words p.a)) (record { rank = b.rank; shape = b.shape; state = b.state; lanes = b.lanes.items }) };
}

impl<K: Object, V: Object> Buffer<K, V> {
    /// A buffer of a rank that fills, and has no pair yet. Its shape counts buckets, as that of a map.
    ///
    /// It refuses for want of memory alone.
    pub fn new(alloc: Global, shape: Layout, rank: u32) -> Result<Buffer<K, V>, NoMemory>
        requires rank { rank < shape.ranks }
        requires places { (1 ≤ places shape) × (places shape ≤ 2 ^ 27) }
        ensures empty { IfOk result (λ b. b ≡ record { rank = rank; shape = shape; state = Filling; lanes = replicate shape.ranks [] }) }
    {
        let mut lanes = Vec::with_capacity(alloc, shape.ranks as usize)?;
        for _ in 0..shape.ranks {
            lanes.push(Lane::new(alloc))?;
        }
        Ok(Buffer {
            rank,
            shape,
            state: State::Filling,
            lanes,
        })
    }

    /// Puts a pair at the end of the lane of its key's home. It hashes the key once.
    ///
    /// It refuses for want of memory alone, and then nothing has changed.
    pub fn insert(&mut self, key: K, value: V) -> Result<(), NoMemory>
        requires key { Fits K.WORDS }
        requires filling { self.old.state ≡ Filling }
        ensures same { (self.new.rank ≡ self.old.rank) × (self.new.shape ≡ self.old.shape) × (self.new.state ≡ Filling) }
        ensures count { length self.new.lanes ≡ length self.old.lanes }
        ensures here { OnOk result (lane self.new (home_in K.WORDS self.old.shape (K.words key)) ≡ lane self.old (home_in K.WORDS self.old.shape (K.words key)) ++ record { a = key; b = value } ∷ []) }
        ensures others { (rank : ℕ) → rank ≢ home_in K.WORDS self.old.shape (K.words key) → lane self.new rank ≡ lane self.old rank }
        ensures unchanged { OnErr result (self.new ≡ self.old) }
    {
        let home = home_rank(&key, self.shape);
        self.lanes[home as usize].push(Pair { a: key, b: value })
    }

    /// Whether it collects pairs.
    pub fn is_filling(&self) -> bool
        ensures filling { (result ≡ true) ↔ (self.now.state ≡ Filling) }
    {
        self.state == State::Filling
    }

    /// How many pairs it has. More than 2^64 - 1 are counted as so many.
    pub fn left(&self) -> u64
        ensures left { result ≡ min (length (items self.now)) (2 ^ 64 - 1) }
    {
        let mut left = 0u64;
        for lane in &self.lanes {
            left = left.saturating_add(lane.left() as u64);
        }
        left
    }

    // It gives its lanes away.
    pub(crate) fn open(&mut self)
        requires filling { self.old.state ≡ Filling }
        ensures turning { self.new ≡ record self.old { state = Turning } }
        ensures wide { length self.old.lanes ≡ self.old.shape.ranks }
        ensures homes { (rank : ℕ) → All (λ p. home_in K.WORDS self.old.shape (K.words p.a) ≡ rank) (lane self.old rank) }
    {
        self.state = State::Turning;
    }

    // Its pairs are all for its own rank.
    pub(crate) fn settle(&mut self)
        requires own { (rank : ℕ) → All (λ p. home_in K.WORDS self.old.shape (K.words p.a) ≡ self.old.rank) (lane self.old rank) }
        ensures settled { self.new ≡ record self.old { state = Exchanged } }
    {
        self.state = State::Exchanged;
    }
}
