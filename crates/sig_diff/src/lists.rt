ghost use Rattle.std.specs.Prelude.{◌≡◌, [], ◌∷◌, ◌++◌, ◌-◌, ◌<◌, ◌≤◌, ◌↔◌, length, take, insert, remove, slice_get, slice_set, IsTrue, IfOk, OnOk, OnErr};
ghost use Rattle.std.specs.Option.{option_to_list};
ghost use Rattle.sig_diff.specs.Differences.{moved};

use std::alloc::{AllocError, Global};
use std::marker::Model;

/// Want of memory, where it is the only refusal.
pub type NoMemory = AllocError;

/// A list that contracts see as its items.
#[derive(Debug, Drop)]
pub struct Items<T> {
    items: Vec<T>,
}

/// A name of a source, a writer or a view: 1 to 16 bytes.
pub type Name = Items<u8>;

/// A text, as bytes.
pub type Text = Items<u8>;

/// The source number of each leaf of a view, from left to right.
pub type LeafList = Items<usize>;

impl<T> Model for Items<T> {
    ghost use Rattle.std.specs.Prelude.{List};

    ghost Value = { List T };

    ghost view = { λ list. list.items.items };
}

impl<T> Items<T> {
    /// The empty list. It takes no memory.
    pub fn new(alloc: Global) -> Items<T>
        ensures { result ≡ [] }
    {
        Items {
            items: Vec::new(alloc),
        }
    }

    /// The list of a vector's items. It takes no memory.
    pub fn from_vec(items: Vec<T>) -> Items<T>
        ensures { result ≡ items.items }
    {
        Items { items }
    }

    /// The vector of the list's items. It takes no memory.
    pub fn into_vec(self) -> Vec<T>
        ensures { result.items ≡ self }
    {
        let Items { items } = self;
        items
    }

    /// The allocator of the list.
    pub fn alloc(&self) -> Global {
        *self.items.allocator()
    }

    pub fn as_slice(&self) -> &[T]
        ensures { result.now ≡ self.now }
    {
        self.items.as_slice()
    }

    pub fn len(&self) -> usize
        ensures { result ≡ length self.now }
    {
        self.items.len()
    }

    pub fn is_empty(&self) -> bool
        ensures { IsTrue result ↔ (self.now ≡ []) }
    {
        self.items.is_empty()
    }
}

impl<T: Drop> Items<T> {
    /// Puts an item at the end. After a refusal the list is as it was.
    pub fn push(&mut self, item: T) -> Result<(), NoMemory>
        ensures ok { OnOk result (self.new ≡ self.old ++ item ∷ []) }
        ensures err { OnErr result (self.new ≡ self.old) }
    {
        self.items.push(item)?;
        Ok(())
    }

    /// Puts an item at an index. After a refusal the list is as it was.
    pub fn insert(&mut self, index: usize, item: T) -> Result<(), NoMemory>
        requires { index ≤ length self.old }
        ensures ok { OnOk result (self.new ≡ insert self.old index item) }
        ensures err { OnErr result (self.new ≡ self.old) }
    {
        self.items.insert(index, item)?;
        Ok(())
    }

    /// Puts an item in the place of the one at an index.
    pub fn set(&mut self, index: usize, item: T)
        requires { index < length self.old }
        ensures { self.new ≡ slice_set self.old index item }
    {
        self.items[index] = item;
    }

    /// Takes the item at an index out.
    pub fn remove(&mut self, index: usize) -> T
        requires { index < length self.old }
        ensures item { slice_get self.old index ≡ Some result }
        ensures rest { self.new ≡ remove self.old index }
    {
        self.items.remove(index)
    }

    /// Takes the item at one index out, and puts it at another index of the list without it. It takes no
    /// memory, and moves only the items between the two.
    pub fn shift(&mut self, old_index: usize, new_index: usize)
        requires old_index { old_index < length self.old }
        requires new_index { new_index < length self.old }
        ensures { self.new ≡ moved self.old old_index new_index }
    {
        shift(self.items.as_mut_slice(), old_index, new_index);
    }

    /// Takes the last item out, where there is one.
    pub fn pop(&mut self) -> Option<T>
        ensures last { self.old ≡ self.new ++ option_to_list result }
        ensures rest { self.new ≡ take (length self.old - 1) self.old }
    {
        self.items.pop()
    }

    /// Takes all items out.
    pub fn clear(&mut self)
        ensures { self.new ≡ [] }
    {
        self.items.clear();
    }
}

impl<T: Copy> Items<T> {
    /// Becomes a list of these items, in the room that it has where they fit. After a refusal the list is as it
    /// was.
    pub fn assign(&mut self, items: &[T]) -> Result<(), NoMemory>
        ensures ok { OnOk result (self.new ≡ items.now) }
        ensures err { OnErr result (self.new ≡ self.old) }
    {
        if items.len() > self.items.capacity() {
            self.items = Vec::from_slice(self.alloc(), items)?;
            return Ok(());
        }
        self.items.clear();
        match self.items.extend_from_slice(items) {
            Ok(()) => Ok(()),
            Err(_) => unreachable!(),
        }
    }

    pub fn copy(&self) -> Result<Items<T>, NoMemory>
        ensures { IfOk result (λ copy. copy ≡ self.now) }
    {
        let alloc = *self.items.allocator();
        let items = Vec::from_slice(alloc, self.items.as_slice())?;
        Ok(Items { items })
    }
}

/// Moves an item, and those between its places by one.
fn shift<T>(items: &mut [T], old_index: usize, new_index: usize)
    requires old_index { old_index < length items.old }
    requires new_index { new_index < length items.old }
    ensures { items.new ≡ moved items.old old_index new_index }
{
    if old_index <= new_index {
        items[old_index..=new_index].rotate_left(1);
    } else {
        items[new_index..=old_index].rotate_right(1);
    }
}
