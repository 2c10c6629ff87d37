//! One rank's part in a phase of a filter, and its calls. The hash of the key is taken once a call, and no call takes
//! memory.

ghost use Rattle.std.specs.Prelude.{◌≡◌, true};
ghost use Rattle.bcl_event.specs.Filter.{presence};

use crate::block::block_of;
use crate::filter::Filter;
use crate::lead::FilterLead;
use bcl_event::{are_set, bits_of, inserted_keys_are_present, with_bits};
use bcl_phase::{Any, Phased, Promise, Rested, Wraps};
use bcl_words::{Object, key_hash};
use std::marker::Brand;

/// One rank's part in a phase of a filter under the promise P. It may go to another thread.
#[derive(Drop)]
pub struct FilterPass<P: Promise, K>
where
    Filter<K>: Phased,
{
    pub pass: Rested<Filter<K>, P>,
}

impl<P: Promise, K> Wraps for FilterPass<P, K>
where
    Filter<K>: Phased,
{
    type Inner = Rested<Filter<K>, P>;

    ghost inner = { λ pass. pass.pass };

    fn wrap(it: Rested<Filter<K>, P>) -> Self {
        FilterPass { pass: it }
    }

    fn into_inner(self) -> Rested<Filter<K>, P> {
        self.pass
    }
}

impl<P: Promise, K: Object> FilterPass<P, K> {
    ghost use Rattle.bcl_phase.specs.Deals.{view};

    /// The number of this rank, from 0.
    pub fn rank(&self) -> u32
        ensures rank { result ≡ (view self.now.pass).rank }
    {
        self.pass.pass.rank()
    }
}

impl<K: Object> FilterPass<Any, K> {
    ghost use Rattle.bcl_event.specs.declared.filter.FilterCall.TheVariants.{Insert, Find};
    ghost use Rattle.bcl_phase.specs.Deals.{view, IsIn, Stands, Makes};
    ghost use Rattle.bcl_bloom.specs.Calls.{WasInserted};

    /// Inserts a key, and answers whether it may have been there: `true` exactly where the reply is `Present`, as it is
    /// where the pass has seen an insertion of the key.
    ///
    /// One `fetch_or` of the key's four marks. It never refuses.
    pub fn insert(&mut self, lead: &FilterLead<K>, key: &K) -> bool
        requires of { IsIn self.old.pass lead.now.lead }
        ensures stands { Stands lead.now.lead self.old.pass self.new.pass (Insert (K.words key.now)) (presence result) }
        ensures again { WasInserted (K.words key.now) (view self.old.pass).seen → result ≡ true }
        ensures of { IsIn self.new.pass lead.now.lead }
        ensures steps { Makes 0 0 1 self.old.pass self.new.pass }
    {
        // It does nothing: its law shows that a key inserted before is present.
        inserted_keys_are_present();
        let h = key_hash::<K>(&key.to_words());
        let block = block_of(self.pass.pass.layout(), h);
        let bits = bits_of(h);
        let marks = with_bits(0, &bits);
        let old = self
            .pass
            .pass
            .fetch_or::<Brand, K>(&lead.lead, block, marks, key);
        are_set(old, &bits)
    }

    /// Answers whether a key may have been inserted: `true` exactly where the reply is `Present`, as it is where the pass
    /// has seen an insertion of the key. So `false` is never wrong.
    ///
    /// One `get` of the key's block. It never refuses.
    pub fn find(&mut self, lead: &FilterLead<K>, key: &K) -> bool
        requires of { IsIn self.old.pass lead.now.lead }
        ensures stands { Stands lead.now.lead self.old.pass self.new.pass (Find (K.words key.now)) (presence result) }
        ensures found { WasInserted (K.words key.now) (view self.old.pass).seen → result ≡ true }
        ensures of { IsIn self.new.pass lead.now.lead }
        ensures steps { Makes 1 0 0 self.old.pass self.new.pass }
    {
        // It does nothing: its law shows that a key inserted before is present.
        inserted_keys_are_present();
        let h = key_hash::<K>(&key.to_words());
        let block = block_of(self.pass.pass.layout(), h);
        let bits = bits_of(h);
        let word = self.pass.pass.get::<Brand, K>(&lead.lead, block, key);
        are_set(word, &bits)
    }
}
