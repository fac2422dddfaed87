//! Lists.

ghost use Rattle.std.specs.Prelude.{◌≡◌, ◌<◌, [], ◌∷◌, ◌++◌, length, take, OnOk, OnErr, IsTrue, ◌↔◌, slice_get, slice_set};
ghost use Rattle.std.specs.Option.{option_copied};
ghost use Rattle.part_memory.specs.Lists.{replaced};

use crate::no_memory::NoMemory;
use std::alloc::Global;
use std::marker::Model;
use std::ops::{Index, IndexMut};

/// A list of items, in the order in which they were pushed.
#[derive(Drop)]
pub struct List<T> {
    items: Vec<T>,
}

impl<T> Model for List<T> {
    ghost use Rattle.std.specs.Prelude.{List};

    ghost Value = { List T };

    ghost view = { λ l. l.items.items };
}

impl<T: Drop> List<T> {
    /// The empty list; it takes no memory.
    pub fn new(alloc: Global) -> Self
        ensures { result ≡ [] }
    {
        List {
            items: Vec::new(alloc),
        }
    }

    /// How many there are.
    pub fn len(&self) -> usize
        ensures { result ≡ length self.now }
    {
        self.items.len()
    }

    /// Whether there is none.
    pub fn is_empty(&self) -> bool
        ensures { IsTrue result ↔ (self.now ≡ []) }
    {
        self.items.is_empty()
    }

    /// The one at a place, counted from 0; none exactly where the place isn't below the length.
    pub fn get(&self, i: usize) -> Option<&T>
        ensures { option_copied result ≡ slice_get self.now i }
    {
        self.items.get(i)
    }

    /// One more, at the end. The only error is want of memory, and the list then stays as it was.
    pub fn push(&mut self, item: T) -> Result<(), NoMemory>
        ensures ok { OnOk result (self.new ≡ self.old ++ item ∷ []) }
        ensures err { OnErr result (self.new ≡ self.old) }
    {
        self.items.push(item)?;
        Ok(())
    }

    /// Puts an item in place of the last; where there is none, the list stays empty. It takes no memory.
    pub fn replace_last(&mut self, item: T)
        ensures { self.new ≡ replaced self.old item }
    {
        let count = self.items.len();
        if count > 0 {
            self.items[count - 1] = item;
        }
    }

    /// Keeps the first `len`, or all where there are fewer.
    pub fn truncate(&mut self, len: usize)
        ensures { self.new ≡ take len self.old }
    {
        self.items.truncate(len);
    }
}

impl<T> Index<usize> for List<T> {
    ghost use Rattle.std.specs.Prelude.{slice_index_or};

    type Output = T;

    ghost can_index = { λ l i. i < length l };

    ghost index_gives = { λ l i item. item ≡ slice_index_or l i item };

    /// The item at a place, counted from 0, which has to be below the length.
    fn index(&self, i: usize) -> &T {
        &self.items[i]
    }
}

impl<T> IndexMut<usize> for List<T> {
    ghost use Rattle.std.specs.Prelude.{slice_index_or};
    ghost use Rattle.std.specs.Borrow.{Lends, sem};
    ghost use Rattle.part_memory.specs.contracts.list.List.{the_row};

    /// The item at a place, counted from 0, which has to be below the length; it may be written.
    fn index_mut(&mut self, i: usize) -> &mut T
        requires { i < length self.old }
        ensures* writes_back { sem 𝓛 (Lends (the_row T.row) T.row self.entry result (slice_set self.old i)) }
        ensures value { result.now ≡ slice_index_or self.old i result.now }
    {
        &mut self.items[i]
    }
}
