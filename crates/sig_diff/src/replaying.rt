ghost use Rattle.std.specs.Prelude.{◌≡◌, [], ◌<◌, ◌-◌, ◌^◌, length, IfOk, OnOk, IfErr};
ghost use Rattle.sig_diff.specs.Differences.{applied};
ghost use Rattle.sig_diff.specs.MapDifferences.{map_is_lawful, map_applied};
ghost use Rattle.sig_diff.specs.Replaying.{AreLawful, MapAreLawful, replayed, map_replayed, StaysShort, MapStaysShort, list_takes, IsUnlawfulAt};

use crate::algebra::{apply, is_lawful};
use crate::differences::Diffs;
use crate::entries::Entries;
use crate::lists::{Items, NoMemory};
use crate::map_algebra::{map_apply, map_is_lawful};
use crate::map_differences::MapDiffs;
use std::alloc::Global;

/// Why differences have no replay.
#[derive(Debug, Clone, Copy, PartialEq, Eq)]
pub enum ReplayError {
    /// The difference at the place `at`, counted from 0, is the first that isn't lawful; `len` is the length there.
    Unlawful { at: u32, len: u32 },
    NoMemory,
}

impl From<NoMemory> for ReplayError {
    ghost use Rattle.std.specs.Prelude.{◌≡◌};
    ghost use Rattle.sig_diff.specs.declared.replaying.ReplayError.TheVariants.{NoMemory};

    ghost from_gives = { λ _ error. error ≡ NoMemory };

    fn from(_error: NoMemory) -> Self {
        ReplayError::NoMemory
    }
}

/// The list after all of the differences, from the empty list on.
#[tactic(auto, using(crate::proofs::Following::replay_steps))]
pub fn replay<T: Copy + Eq>(alloc: Global, diffs: &Diffs<T>) -> Result<Items<T>, ReplayError>
    requires few { length diffs.now < 2 ^ 32 }
    requires short { StaysShort (2 ^ 32 - 1) [] diffs.now }
    ensures lawful { OnOk result (AreLawful [] diffs.now) }
    ensures ok { IfOk result (λ items. items ≡ replayed [] diffs.now) }
    ensures err { IfErr result (IsUnlawfulAt list_takes applied length [] diffs.now) }
{
    let mut items = Items::new(alloc);
    let mut at = 0;
    'diffs: for diff in diffs.as_slice() {
        let len = items.len() as u32;
        if !is_lawful(diff, len) {
            return Err(ReplayError::Unlawful { at, len });
        }
        apply(&mut items, diff)?;
        at += 1;
    }
    Ok(items)
}

/// The map after all of the differences, from the empty map on.
#[tactic(auto, using(crate::proofs::Following::replay_steps))]
pub fn map_replay<V: Copy + Eq>(
    alloc: Global,
    diffs: &MapDiffs<V>,
) -> Result<Entries<V>, ReplayError>
    requires few { length diffs.now < 2 ^ 32 }
    requires short { MapStaysShort (2 ^ 32 - 1) [] diffs.now }
    ensures lawful { OnOk result (MapAreLawful [] diffs.now) }
    ensures ok { IfOk result (λ map. map ≡ map_replayed [] diffs.now) }
    ensures err { IfErr result (IsUnlawfulAt map_is_lawful map_applied length [] diffs.now) }
{
    let mut map = Entries::new(alloc);
    let mut at = 0;
    'diffs: for diff in diffs.as_slice() {
        if !map_is_lawful(diff, &map) {
            let len = map.len() as u32;
            return Err(ReplayError::Unlawful { at, len });
        }
        map_apply(&mut map, diff)?;
        at += 1;
    }
    Ok(map)
}
