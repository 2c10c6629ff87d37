//! The filter that one caller steps.

ghost use Rattle.std.specs.Prelude.{◌≡◌, ◌≤◌, ◌%◌, List, ℕ, [], IfOk, OnOk, OnErr};
ghost use Rattle.bcl_words.specs.Words.{Fits};
ghost use Rattle.bcl_event.specs.Filter.{filter_step, filter_call};
ghost use Rattle.bcl_event.specs.SeqFilter.{HoldsMarks, IsInsert, Marks, answer_at, bits_at};

use crate::filter::{FilterCall, FilterReply};
use crate::marks::{are_set, bits_of, with_bits};
use bcl_words::{NoMemory, Object, key_hash};
use std::alloc::Global;
use std::collections::BTreeMap;
use std::marker::{Model, PhantomData};

/// A Bloom filter of keys of one type, which answers as its definition says. A contract sees the number of its blocks
/// and its marks, which are those of the keys that were inserted.
#[derive(Drop)]
pub struct SeqFilter<K: Object> {
    blocks: u32,
    bits: BTreeMap<u32, u64>,
    of: PhantomData<K>,
}

impl<K: Object> Model for SeqFilter<K> {
    ghost use Rattle.std.specs.Prelude.{◌≤◌};
    ghost use Rattle.bcl_event.specs.SeqFilter.{Marked};

    ghost Value = { Marked };

    ghost view = { λ f. record { blocks = f.blocks; bits = f.bits.entries } };

    ghost invariant = { λ f. 1 ≤ f.blocks };
}

impl<K: Object> SeqFilter<K> {
    /// A filter of so many blocks of 64 marks, without keys. It takes memory for blocks as they are marked.
    pub fn new(alloc: Global, blocks: u32) -> Result<SeqFilter<K>, NoMemory>
        requires blocks { 1 ≤ blocks }
        ensures blocks { IfOk result (λ filter. filter.blocks ≡ blocks) }
        ensures keys { IfOk result (λ filter. HoldsMarks K.WORDS filter []) }
    {
        Ok(SeqFilter {
            blocks,
            bits: BTreeMap::new(alloc),
            of: PhantomData,
        })
    }

    /// Makes a call, in the logarithm of the number of marked blocks. Only `Insert` may find no memory, and then nothing is
    /// changed.
    pub fn step(&mut self, call: &FilterCall<K>) -> Result<FilterReply, NoMemory>
        requires fits { Fits K.WORDS }
        ensures reply { (keys : List (List ℕ)) → HoldsMarks K.WORDS self.old keys → IfOk result (λ reply. reply ≡ (filter_step self.old.blocks K.WORDS keys (filter_call K.words call.now)).0) }
        ensures state { (keys : List (List ℕ)) → HoldsMarks K.WORDS self.old keys → OnOk result (HoldsMarks K.WORDS self.new (filter_step self.old.blocks K.WORDS keys (filter_call K.words call.now)).1) }
        ensures blocks { self.new.blocks ≡ self.old.blocks }
        ensures unchanged { OnErr result (self.new ≡ self.old) }
        ensures no_memory { OnErr result (IsInsert call.now) }
    {
        match call {
            FilterCall::Insert(key) => self.insert(key_hash::<K>(&key.to_words())),
            FilterCall::Find(key) => Ok(self.find(key_hash::<K>(&key.to_words()))),
        }
    }

    fn find(&self, h: u64) -> FilterReply
        ensures { result ≡ answer_at h self.now }
    {
        let bits = self.bits_of_block(self.block(h));
        if are_set(bits, &bits_of(h)) {
            FilterReply::Present
        } else {
            FilterReply::NotPresent
        }
    }

    /// Marks what a hash marks, and answers whether all of it was marked before.
    fn insert(&mut self, h: u64) -> Result<FilterReply, NoMemory>
        ensures reply { IfOk result (λ reply. reply ≡ answer_at h self.old) }
        ensures state { OnOk result (Marks h self.old self.new) }
        ensures blocks { self.new.blocks ≡ self.old.blocks }
        ensures unchanged { OnErr result (self.new ≡ self.old) }
    {
        let reply = self.find(h);
        let block = self.block(h);
        let bits = with_bits(self.bits_of_block(block), &bits_of(h));
        self.bits.insert(block, bits)?;
        Ok(reply)
    }

    fn block(&self, h: u64) -> u32
        ensures { result ≡ h % self.now.blocks }
    {
        (h % u64::from(self.blocks)) as u32
    }

    fn bits_of_block(&self, block: u32) -> u64
        ensures { result ≡ bits_at block self.now.bits }
    {
        self.bits.get(&block).copied().unwrap_or(0)
    }
}
