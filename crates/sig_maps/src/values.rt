ghost use Rattle.std.specs.Prelude.{◌≡◌, [], ◌∷◌, ◌++◌, ℤ, List, IfOk, OnOk};
ghost use Rattle.sig_diff.specs.Entries.{IsRising, values_mapped};
ghost use Rattle.sig_diff.specs.MapDifferences.{MapIsLawful, map_applied};
ghost use Rattle.sig_maps.specs.Tables.{map_value_gives};
ghost use Rattle.sig_ops.specs.Leading.{MapLeadsTo};

use sig_diff::{Entries, MapDiff, MapDiffs, Mapper, NoMemory};
use std::alloc::Global;
use std::marker::Model;

/// A map with a function at its values. Contracts see it as its function.
///
/// By `neg` it shows the map of 1 to 10 as the map of 1 to -10. For the removal of 1 it then gives that removal.
#[derive(Debug, Drop)]
pub struct MapValue<M> {
    mapper: M,
}

impl<M> Model for MapValue<M> {
    ghost Value = { M };

    ghost view = { λ op. op.mapper };
}

impl<M> MapValue<M> {
    /// The map by a function. It takes no memory.
    pub fn new(alloc: Global, mapper: M) -> MapValue<M>
        ensures { result ≡ mapper }
    {
        MapValue { mapper }
    }
}

impl<M: Mapper<i64, i64>> MapValue<M> {
    /// The map with the function at its values.
    pub fn start(&mut self, entries: &Entries<i64>) -> Result<Entries<i64>, NoMemory>
        requires { M.can_call self.old }
        ensures view { IfOk result (λ mapped. mapped ≡ values_mapped (M.maps self.old) entries.now) }
        ensures state { self.new ≡ self.old }
    {
        entries.map_values(&self.mapper)
    }

    /// Adds what it gives for a difference of the map.
    pub fn step(&mut self, diff: &MapDiff<i64>, given: &mut MapDiffs<i64>) -> Result<(), NoMemory>
        requires { M.can_call self.old }
        ensures given { OnOk result (given.new ≡ given.old ++ map_value_gives (M.maps self.old) diff.now) }
        ensures state { self.new ≡ self.old }
        ensures law { (entries : List (ℤ × ℤ)) → IsRising entries → MapIsLawful diff.now entries
            → MapLeadsTo (values_mapped (M.maps self.old) entries) (map_value_gives (M.maps self.old) diff.now) (values_mapped (M.maps self.old) (map_applied entries diff.now)) }
    {
        given.push(mapped(&self.mapper, diff)?)
    }
}

/// The same difference, with the function at its values.
fn mapped<M: Mapper<i64, i64>>(mapper: &M, diff: &MapDiff<i64>) -> Result<MapDiff<i64>, NoMemory>
    requires { M.can_call mapper.now }
    ensures { IfOk result (λ mapped. mapped ∷ [] ≡ map_value_gives (M.maps mapper.now) diff.now) }
{
    Ok(match diff {
        MapDiff::Replace { entries } => MapDiff::Replace {
            entries: entries.map_values(mapper)?,
        },
        MapDiff::Insert { key, value } => MapDiff::Insert {
            key: *key,
            value: mapper.call(*value),
        },
        MapDiff::Update { key, value } => MapDiff::Update {
            key: *key,
            value: mapper.call(*value),
        },
        MapDiff::Remove { key } => MapDiff::Remove { key: *key },
        MapDiff::Clear => MapDiff::Clear,
    })
}
