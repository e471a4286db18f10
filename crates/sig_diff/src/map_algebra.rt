ghost use Rattle.std.specs.Prelude.{◌≡◌, OnOk, OnErr};
ghost use Rattle.sig_diff.specs.MapDifferences.{map_is_lawful, MapIsLawful, map_applied};

use crate::entries::Entries;
use crate::lists::NoMemory;
use crate::map_differences::MapDiff;

/// Whether the map takes the difference.
pub fn map_is_lawful<V>(diff: &MapDiff<V>, map: &Entries<V>) -> bool
    ensures { result ≡ map_is_lawful diff.now map.now }
{
    match diff {
        MapDiff::Replace { .. } | MapDiff::Clear => true,
        MapDiff::Insert { key, .. } => map.search(*key).is_err(),
        MapDiff::Update { key, .. } | MapDiff::Remove { key } => map.search(*key).is_ok(),
    }
}

/// Changes a map by a difference that it takes. After a refusal the map is as it was.
pub fn map_apply<V: Copy + Eq>(map: &mut Entries<V>, diff: &MapDiff<V>) -> Result<(), NoMemory>
    requires { MapIsLawful diff.now map.old }
    ensures ok { OnOk result (map.new ≡ map_applied map.old diff.now) }
    ensures err { OnErr result (map.new ≡ map.old) }
{
    match diff {
        MapDiff::Replace { entries } => map.assign(entries)?,
        MapDiff::Insert { key, value } => map.insert(*key, *value)?,
        MapDiff::Update { key, value } => map.update(*key, *value),
        MapDiff::Remove { key } => {
            map.remove(*key);
        }
        MapDiff::Clear => map.clear(),
    }
    Ok(())
}
