//! A list that grows, and can promise to grow further without asking for memory.
ghost use Rattle.std.specs.Prelude.{◌≡◌, ◌+◌, ◌-◌, ◌≤◌, ◌++◌, ◌∷◌, [], length, OnOk, OnErr};
ghost use Rattle.byte_cursor.specs.Growing.{no_items};

use std::alloc::{AllocError, Global};
use std::marker::Model;

/// A list that grows. Contracts see its items and its spare: how many more items it takes
/// without asking for memory.
///
/// An AllocError is want of memory, and then the list is unchanged.
#[derive(Drop)]
pub struct ItemList<T> {
    vec: Vec<T>,
    spare: usize,
}

/// A list of bytes.
pub type ByteList = ItemList<u8>;

/// A list of words, each below 2^32.
pub type WordList = ItemList<u32>;

impl<T> Model for ItemList<T> {
    ghost use Rattle.std.specs.Prelude.{◌+◌, ◌≤◌, vec_len, vec_capacity};
    ghost use Rattle.byte_cursor.specs.Growing.{Growing};

    ghost Value = { Growing T };

    ghost view = { λ l. record { items = l.vec.items; spare = l.spare } };

    ghost invariant = { λ l. vec_len l.vec + l.spare ≤ vec_capacity l.vec };
}

impl<T: Drop> ItemList<T> {
    /// An empty list with no spare, which keeps `alloc` for its memory.
    pub fn new(alloc: Global) -> Self
        ensures { result ≡ no_items }
    {
        ItemList {
            vec: Vec::new(alloc),
            spare: 0,
        }
    }

    /// How many items it holds.
    pub fn len(&self) -> usize
        ensures { result ≡ length self.now.items }
    {
        self.vec.len()
    }

    /// The items, first to last.
    pub fn as_slice(&self) -> &[T]
        ensures { result.now ≡ self.now.items }
    {
        self.vec.as_slice()
    }

    /// Appends an item, which a spare of 1 or more leaves one smaller. A refused item is dropped.
    pub fn push(&mut self, item: T) -> Result<(), AllocError>
        ensures ok { OnOk result (self.new.items ≡ self.old.items ++ item ∷ []) }
        ensures spare { OnOk result (self.new.spare ≡ self.old.spare - 1) }
        ensures err { OnErr result (self.new ≡ self.old) }
    {
        self.vec.push(item)?;
        self.spare = self.spare.saturating_sub(1);
        Ok(())
    }

    /// Makes room for `more` further items: the spare is then at least `more`, and no less than
    /// it was.
    pub fn reserve(&mut self, more: usize) -> Result<(), AllocError>
        ensures items { self.new.items ≡ self.old.items }
        ensures ok { OnOk result (more ≤ self.new.spare) }
        ensures kept { self.old.spare ≤ self.new.spare }
        ensures err { OnErr result (self.new ≡ self.old) }
    {
        self.vec.reserve(more)?;
        self.spare = self.spare.max(more);
        Ok(())
    }

    /// Appends an item into the room that `reserve` made, and takes no memory.
    pub fn push_spare(&mut self, item: T)
        requires { 1 ≤ self.old.spare }
        ensures items { self.new.items ≡ self.old.items ++ item ∷ [] }
        ensures spare { self.new.spare + 1 ≡ self.old.spare }
    {
        self.spare -= 1;
        if self.vec.push(item).is_err() {
            unreachable!();
        }
    }

    /// Moves the items of another list to the end, into the room that `reserve` made, and takes no memory.
    pub fn append_spare(&mut self, more: ItemList<T>)
        requires { length more.items ≤ self.old.spare }
        ensures items { self.new.items ≡ self.old.items ++ more.items }
        ensures spare { self.new.spare + length more.items ≡ self.old.spare }
    {
        let mut moved = more.vec;
        self.spare -= moved.len();
        if self.vec.append(&mut moved).is_err() {
            unreachable!();
        }
    }
}

impl<T: Copy> ItemList<T> {
    /// Appends a copy of each item, or nothing.
    pub fn extend(&mut self, more: &[T]) -> Result<(), AllocError>
        ensures ok { OnOk result (self.new.items ≡ self.old.items ++ more.now) }
        ensures spare { OnOk result (self.new.spare ≡ self.old.spare - length more.now) }
        ensures err { OnErr result (self.new ≡ self.old) }
    {
        self.vec.extend_from_slice(more)?;
        self.spare = self.spare.saturating_sub(more.len());
        Ok(())
    }
}
