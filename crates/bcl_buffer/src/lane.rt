//! Items in their order, taken from the front.

ghost use Rattle.std.specs.Prelude.{◌≡◌, ◌++◌, [], ◌∷◌, OnOk, OnErr, length, take};
ghost use Rattle.bcl_buffer.specs.Lanes.{Takes};

use bcl_words::NoMemory;
use std::alloc::Global;
use std::marker::Model;

/// Items, with a cursor at the first that is left: what is taken moves none of the others. A contract sees those that are
/// left.
#[derive(Drop)]
pub(crate) struct Lane<T> {
    items: Vec<T>,
    from: usize,
}

impl<T> Model for Lane<T> {
    ghost use Rattle.std.specs.Prelude.{List, drop, length, ◌≤◌};

    ghost Value = { List T };

    ghost view = { λ l. drop l.from l.items.items };

    ghost invariant = { λ l. l.from ≤ length l.items.items };
}

impl<T: Copy> Lane<T> {
    pub(crate) fn new(alloc: Global) -> Lane<T>
        ensures { result ≡ [] }
    {
        Lane {
            items: Vec::new(alloc),
            from: 0,
        }
    }

    pub(crate) fn push(&mut self, item: T) -> Result<(), NoMemory>
        ensures pushed { OnOk result (self.new ≡ self.old ++ item ∷ []) }
        ensures unchanged { OnErr result (self.new ≡ self.old) }
    {
        self.items.push(item)?;
        Ok(())
    }

    /// Takes the first item that is left.
    pub(crate) fn take(&mut self) -> Option<T>
        ensures { Takes result self.old self.new }
    {
        let item = *self.items.as_slice().get(self.from)?;
        self.from += 1;
        Some(item)
    }

    /// The first items that are left, at most so many.
    pub(crate) fn front(&self, most: usize) -> &[T]
        ensures { result.now ≡ take most self.now }
    {
        let left = &self.items.as_slice()[self.from..];
        &left[..left.len().min(most)]
    }

    pub(crate) fn left(&self) -> usize
        ensures { result ≡ length self.now }
    {
        self.items.len() - self.from
    }

    /// Lets go of its items, those too that were taken. Their room serves the next ones.
    pub(crate) fn clear(&mut self)
        ensures { self.new ≡ [] }
    {
        self.items.clear();
        self.from = 0;
    }
}
