ghost use Rattle.std.specs.Prelude.{◌≡◌, [], ◌∷◌, ◌++◌, OnOk};
ghost use Rattle.std.specs.Prelude.{◌+◌, length, nat_lt, take};
ghost use Rattle.sig_script.specs.Names.{meaning};

use crate::grammar::Meaning;
use crate::names::Lookup;
use sig_diff::NoMemory;
use std::alloc::{AllocError, Global};
use std::collections::BTreeMap;
use std::marker::Model;

/// The names of a document in their order, with what each stands for, and the first place of each.
#[derive(Drop)]
pub struct NameTable<'v> {
    given: Vec<(&'v [u8], Meaning)>,
    places: BTreeMap<&'v [u8], usize>,
}

impl<'v> Model for NameTable<'v> {
    ghost use Rattle.std.specs.Prelude.{ℕ, List};
    ghost use Rattle.sig_script.specs.declared.grammar.Meaning.{Meaning};
    ghost use Rattle.sig_script.specs.NameTables.{FindsFirst, names_given};

    ghost Value = { List (List ℕ × Meaning) };

    ghost view = { λ table. names_given table.given.items };

    ghost invariant = { λ table. FindsFirst (names_given table.given.items) table.places };
}

impl<'v> NameTable<'v> {
    ghost use Rattle.sig_script.specs.NameTables.{meaning_at, place_of};

    pub fn new(alloc: Global) -> NameTable<'v>
        ensures { result ≡ [] }
    {
        NameTable {
            given: Vec::new(alloc),
            places: BTreeMap::new(alloc),
        }
    }

    /// Puts a name at the end. The first of equal names counts.
    pub fn add(&mut self, name: &'v [u8], meaning: Meaning) -> Result<(), NoMemory>
        ensures { OnOk result (self.new ≡ self.old ++ (name.now, meaning) ∷ []) }
    {
        let place = self.given.len();
        self.given.push((name, meaning))?;
        if self.places.contains_key(name) {
            return Ok(());
        }
        match self.places.insert(name, place) {
            Ok(_) => Ok(()),
            Err(_) => {
                self.given.pop();
                Err(AllocError)
            }
        }
    }

    /// The first place of a name.
    fn place(&self, name: &[u8]) -> Option<usize>
        ensures { result ≡ place_of name.now self.now }
    {
        self.places.get(name).copied()
    }

    /// How many names there are.
    pub fn len(&self) -> usize
        ensures { result ≡ length self.now }
    {
        self.given.len()
    }

    /// What a name stands for among the first names and so many after them.
    #[tactic(auto, using(crate::proofs::NameTables::meaning_placed))]
    pub fn meaning_before(&self, first: usize, more: usize, name: &[u8]) -> Option<Meaning>
        ensures { result ≡ meaning (take (first + more) self.now) name.now }
    {
        self.meaning_at(first, more, self.place(name))
    }

    fn meaning_at(&self, first: usize, more: usize, place: Option<usize>) -> Option<Meaning>
        ensures { result ≡ meaning_at (first + more) self.now place }
    {
        let place = place?;
        if !comes_before(place, first, more) {
            return None;
        }
        Some(self.given.get(place)?.1)
    }
}

/// Whether a place is among the first and so many after them.
fn comes_before(place: usize, first: usize, more: usize) -> bool
    ensures { result ≡ nat_lt place (first + more) }
{
    place < first || place - first < more
}

impl Lookup for NameTable<'_> {
    ghost names = { λ names. names };

    fn meaning(&self, name: &[u8]) -> Option<Meaning> {
        self.meaning_before(self.len(), 0, name)
    }
}
