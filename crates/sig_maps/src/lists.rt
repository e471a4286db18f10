ghost use Rattle.std.specs.Prelude.{◌≡◌, ◌≤◌, ℤ, List, [], ◌∷◌, ◌++◌, length, Bool, true, false, IfOk, OnOk};
ghost use Rattle.sig_diff.specs.Entries.{IsRising, rank};
ghost use Rattle.sig_diff.specs.MapDifferences.{MapIsLawful, map_applied};
ghost use Rattle.sig_maps.specs.Tables.{IsListing, list_gives};
ghost use Rattle.sig_ops.specs.Leading.{LeadsTo};

use sig_diff::{Diffs, Entries, Items, MapDiff, NoMemory, VecDiff, map_apply};
use std::alloc::Global;
use std::marker::{Model, PhantomData};

/// The keys of a map as a list, rising. Contracts see it as the map that it stands for.
pub type KeysOp = ListOp<Keys>;

/// The values of a map as a list, in the order of their keys. Contracts see it as the map that it stands for.
pub type ValuesOp = ListOp<Values>;

/// The entries of a map as a list of pairs, by rising keys. Contracts see it as the map that it stands for.
pub type EntriesOp = ListOp<Pairs>;

/// What a list shows of a map: an item for each entry, by rising keys.
pub trait Listing {
    type Item: Copy + Eq;

    /// Whether the list changes where a value does.
    const BY_VALUE: bool;

    ghost BY_VALUE: { Bool };
    /// What the list is, and what it shows of an entry.
    ghost shown: { List (ℤ × ℤ) → List Self.Item };

    ghost item: { ℤ → ℤ → Self.Item };

    /// The list of a map.
    fn shown(entries: &Entries<i64>) -> Result<Items<Self::Item>, NoMemory>
        ensures { IfOk result (λ items. items ≡ shown entries.now) };

    /// The item of an entry.
    fn item(key: i64, value: i64) -> Self::Item
        ensures { result ≡ item key value };

    ghost listing: { IsListing shown item BY_VALUE };
}

#[derive(Debug, Drop)]
pub struct Keys;

impl Listing for Keys {
    ghost use Rattle.sig_diff.specs.Entries.{keys_of};
    ghost use Rattle.sig_maps.specs.laws.Tables.{keys_listing};

    type Item = i64;

    const BY_VALUE: bool = false;

    ghost BY_VALUE = { false };

    ghost shown = { keys_of };

    ghost item = { λ key value. key };

    ghost listing = { keys_listing };

    fn shown(entries: &Entries<i64>) -> Result<Items<i64>, NoMemory> {
        entries.keys()
    }

    fn item(key: i64, _value: i64) -> i64 {
        key
    }
}

#[derive(Debug, Drop)]
pub struct Values;

impl Listing for Values {
    ghost use Rattle.sig_diff.specs.Entries.{values_of};
    ghost use Rattle.sig_maps.specs.laws.Tables.{values_listing};

    type Item = i64;

    const BY_VALUE: bool = true;

    ghost BY_VALUE = { true };

    ghost shown = { values_of };

    ghost item = { λ key value. value };

    ghost listing = { values_listing };

    fn shown(entries: &Entries<i64>) -> Result<Items<i64>, NoMemory> {
        entries.values()
    }

    fn item(_key: i64, value: i64) -> i64 {
        value
    }
}

#[derive(Debug, Drop)]
pub struct Pairs;

impl Listing for Pairs {
    ghost use Rattle.sig_maps.specs.laws.Tables.{entries_listing};

    type Item = (i64, i64);

    const BY_VALUE: bool = true;

    ghost BY_VALUE = { true };

    ghost shown = { λ entries. entries };

    ghost item = { λ key value. (key, value) };

    ghost listing = { entries_listing };

    fn shown(entries: &Entries<i64>) -> Result<Items<(i64, i64)>, NoMemory> {
        entries.pairs()
    }

    fn item(key: i64, value: i64) -> (i64, i64) {
        (key, value)
    }
}

/// A map as a list. Contracts see it as the map that it stands for.
///
/// The values of the map of 1 to 10 and 3 to 30 are shown as 10, 30. For the insertion of 20 at 2 it then gives an insertion of 20 at 1.
#[derive(Debug, Drop)]
pub struct ListOp<L> {
    map: Entries<i64>,
    listing: PhantomData<L>,
}

impl<L> Model for ListOp<L> {
    ghost use Rattle.std.specs.Prelude.{ℤ, List};
    ghost use Rattle.sig_diff.specs.Entries.{IsRising};

    ghost Value = { List (ℤ × ℤ) };

    ghost view = { λ op. op.map };

    ghost invariant = { λ op. IsRising op.map };
}

impl<L: Listing> ListOp<L> {
    /// The list, not yet started. It takes no memory.
    pub fn new(alloc: Global) -> ListOp<L>
        ensures { result ≡ [] }
    {
        ListOp {
            map: Entries::new(alloc),
            listing: PhantomData,
        }
    }

    /// The list of a map, for which it stands from then on.
    pub fn start(&mut self, entries: &Entries<i64>) -> Result<Items<L::Item>, NoMemory>
        ensures view { IfOk result (λ items. items ≡ L.shown entries.now) }
        ensures state { OnOk result (self.new ≡ entries.now) }
    {
        self.map = entries.copy()?;
        L::shown(entries)
    }

    /// Adds what the list gives for a difference of the map, and stands for the map after it. After want of memory it
    /// is not to be stepped again.
    pub fn step(&mut self, diff: &MapDiff<i64>, given: &mut Diffs<L::Item>) -> Result<(), NoMemory>
        requires lawful { MapIsLawful diff.now self.old }
        requires short { length self.old ≤ 65536 }
        ensures given { OnOk result (given.new ≡ given.old ++ list_gives L.shown L.item L.BY_VALUE self.old diff.now) }
        ensures state { OnOk result (self.new ≡ map_applied self.old diff.now) }
        ensures law { LeadsTo (L.shown self.old) (list_gives L.shown L.item L.BY_VALUE self.old diff.now)
            (L.shown (map_applied self.old diff.now)) }
    {
        give::<L>(&self.map, diff, given)?;
        follow(&mut self.map, diff)
    }
}

/// Adds what a list of the map gives for a difference.
fn give<L: Listing>(
    map: &Entries<i64>,
    diff: &MapDiff<i64>,
    given: &mut Diffs<L::Item>,
) -> Result<(), NoMemory>
    requires { length map.now ≤ 65536 }
    ensures { OnOk result (given.new ≡ given.old ++ list_gives L.shown L.item L.BY_VALUE map.now diff.now) }
{
    match diff {
        MapDiff::Replace { entries } => given.push(VecDiff::Replace {
            values: L::shown(entries)?,
        }),
        MapDiff::Insert { key, value } => given.push(VecDiff::InsertAt {
            index: place(map, *key),
            value: L::item(*key, *value),
        }),
        MapDiff::Update { .. } if !L::BY_VALUE => Ok(()),
        MapDiff::Update { key, value } => given.push(VecDiff::UpdateAt {
            index: place(map, *key),
            value: L::item(*key, *value),
        }),
        MapDiff::Remove { key } => given.push(VecDiff::RemoveAt {
            index: place(map, *key),
        }),
        MapDiff::Clear => given.push(VecDiff::Clear),
    }
}

/// How many keys of the map are below the key.
fn place(map: &Entries<i64>, key: i64) -> u32
    requires { length map.now ≤ 65536 }
    ensures { result ≡ rank key map.now }
{
    match map.search(key) {
        Ok(index) | Err(index) => index as u32,
    }
}

/// Changes the map by the difference. Its keys rise then, after want of memory too.
fn follow(map: &mut Entries<i64>, diff: &MapDiff<i64>) -> Result<(), NoMemory>
    requires { MapIsLawful diff.now map.old }
    ensures state { OnOk result (map.new ≡ map_applied map.old diff.now) }
    ensures rising { IsRising map.new }
{
    let followed = map_apply(map, diff);
    // The slice's contract says that the keys rise.
    let _ = map.as_slice();
    followed
}
