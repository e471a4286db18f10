ghost use Rattle.std.specs.Prelude.{◌≡◌, true, false, Some, [], ◌∷◌, ◌++◌, ◌↔◌, length, is_ok, IsTrue, IfOk, OnOk, OnErr, MatchResult};
ghost use Rattle.sig_diff.specs.Entries.{IsRising, IsAbove, rank, has_key, value_at, with_value, without, keys_of, values_of, values_mapped};

use crate::functions::Mapper;
use crate::lists::{Items, NoMemory};
use std::alloc::Global;
use std::marker::Model;

/// A map from numbers to values, as its entries by rising keys.
#[derive(Debug, Drop)]
pub struct Entries<V> {
    entries: Vec<(i64, V)>,
}

impl<V> Model for Entries<V> {
    ghost use Rattle.std.specs.Prelude.{List, ℤ};
    ghost use Rattle.sig_diff.specs.Entries.{IsRising};

    ghost Value = { List (ℤ × V) };

    ghost view = { λ map. map.entries.items };

    ghost invariant = { λ map. IsRising map.entries.items };
}

impl<V> Entries<V> {
    /// The empty map. It takes no memory.
    pub fn new(alloc: Global) -> Entries<V>
        ensures { result ≡ [] }
    {
        Entries {
            entries: Vec::new(alloc),
        }
    }

    /// What the map's memory is allocated by.
    pub fn alloc(&self) -> Global {
        *self.entries.allocator()
    }

    pub fn as_slice(&self) -> &[(i64, V)]
        ensures entries { result.now ≡ self.now }
        ensures rising { IsRising self.now }
    {
        self.entries.as_slice()
    }

    pub fn len(&self) -> usize
        ensures { result ≡ length self.now }
    {
        self.entries.len()
    }

    pub fn is_empty(&self) -> bool
        ensures { IsTrue result ↔ (self.now ≡ []) }
    {
        self.entries.is_empty()
    }

    /// Where the key stands, or where it would come in.
    pub fn search(&self, key: i64) -> Result<usize, usize>
        ensures place { MatchResult result (λ index. index ≡ rank key self.now) (λ index. index ≡ rank key self.now) }
        ensures found { is_ok result ≡ has_key key self.now }
    {
        self.entries.binary_search_by_key(&key, |entry| entry.0)
    }
}

impl<V: Copy> Entries<V> {
    /// The value at the key, if the map has one.
    pub fn get(&self, key: i64) -> Option<V>
        ensures { result ≡ value_at key self.now }
    {
        match self.search(key) {
            Ok(index) => Some(self.entries[index].1),
            Err(_) => None,
        }
    }

    /// The keys, by rising keys.
    pub fn keys(&self) -> Result<Items<i64>, NoMemory>
        ensures { IfOk result (λ keys. keys ≡ keys_of self.now) }
    {
        let mut keys = Items::new(self.alloc());
        'entries: for entry in &self.entries {
            keys.push(entry.0)?;
        }
        Ok(keys)
    }

    /// The values, by rising keys.
    pub fn values(&self) -> Result<Items<V>, NoMemory>
        ensures { IfOk result (λ values. values ≡ values_of self.now) }
    {
        let mut values = Items::new(self.alloc());
        'entries: for entry in &self.entries {
            values.push(entry.1)?;
        }
        Ok(values)
    }

    /// The entries as a list of pairs, by rising keys.
    pub fn pairs(&self) -> Result<Items<(i64, V)>, NoMemory>
        ensures { IfOk result (λ pairs. pairs ≡ self.now) }
    {
        let pairs = Vec::from_slice(self.alloc(), self.entries.as_slice())?;
        Ok(Items::from_vec(pairs))
    }

    /// The map with the function at each value.
    pub fn map_values<U: Drop, M: Mapper<V, U>>(&self, mapper: &M) -> Result<Entries<U>, NoMemory>
        requires { M.can_call mapper.now }
        ensures { IfOk result (λ images. images ≡ values_mapped (M.maps mapper.now) self.now) }
    {
        let mut entries = Vec::new(self.alloc());
        'entries: for entry in &self.entries {
            entries.push((entry.0, mapper.call(entry.1)))?;
        }
        Ok(Entries { entries })
    }

    /// Becomes another map, in the room that it has where that fits. After a refusal the map is as it was.
    pub fn assign(&mut self, other: &Entries<V>) -> Result<(), NoMemory>
        ensures ok { OnOk result (self.new ≡ other.now) }
        ensures err { OnErr result (self.new ≡ self.old) }
    {
        if other.len() > self.entries.capacity() {
            *self = other.copy()?;
            return Ok(());
        }
        self.entries.clear();
        match self.entries.extend_from_slice(other.as_slice()) {
            Ok(()) => Ok(()),
            Err(_) => unreachable!(),
        }
    }

    pub fn copy(&self) -> Result<Entries<V>, NoMemory>
        ensures { IfOk result (λ copy. copy ≡ self.now) }
    {
        let entries = Vec::from_slice(self.alloc(), self.entries.as_slice())?;
        Ok(Entries { entries })
    }
}

impl<V: Drop> Entries<V> {
    /// Puts an entry at the end, whose key is above the others. After a refusal the map is as it was.
    pub fn push(&mut self, entry: (i64, V)) -> Result<(), NoMemory>
        requires { IsAbove entry.0 self.old }
        ensures ok { OnOk result (self.new ≡ self.old ++ entry ∷ []) }
        ensures err { OnErr result (self.new ≡ self.old) }
    {
        self.entries.push(entry)?;
        Ok(())
    }

    /// Puts a key that the map doesn't have in its place. After a refusal the map is as it was.
    pub fn insert(&mut self, key: i64, value: V) -> Result<(), NoMemory>
        requires { has_key key self.old ≡ false }
        ensures ok { OnOk result (self.new ≡ with_value key value self.old) }
        ensures err { OnErr result (self.new ≡ self.old) }
    {
        match self.search(key) {
            Ok(_) => unreachable!(),
            Err(index) => Ok(self.entries.insert(index, (key, value))?),
        }
    }

    /// Gives a key of the map another value. It takes no memory.
    pub fn update(&mut self, key: i64, value: V)
        requires { has_key key self.old ≡ true }
        ensures { self.new ≡ with_value key value self.old }
    {
        match self.search(key) {
            Ok(index) => self.entries[index] = (key, value),
            Err(_) => unreachable!(),
        }
    }

    /// Takes a key of the map out. It takes no memory.
    pub fn remove(&mut self, key: i64) -> V
        requires { has_key key self.old ≡ true }
        ensures value { value_at key self.old ≡ Some result }
        ensures rest { self.new ≡ without key self.old }
    {
        match self.search(key) {
            Ok(index) => self.entries.remove(index).1,
            Err(_) => unreachable!(),
        }
    }

    /// Takes all entries out.
    pub fn clear(&mut self)
        ensures { self.new ≡ [] }
    {
        self.entries.clear();
    }
}
