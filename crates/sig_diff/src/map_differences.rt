use crate::copying::TryCopy;
use crate::entries::Entries;
use crate::lists::{Items, NoMemory};

/// One difference between two maps.
#[derive(Debug, Drop)]
pub enum MapDiff<V> {
    /// The map becomes these entries.
    Replace { entries: Entries<V> },
    /// A key that the map doesn't have comes in with a value.
    Insert { key: i64, value: V },
    /// A key of the map gets another value.
    Update { key: i64, value: V },
    /// A key of the map goes.
    Remove { key: i64 },
    /// Every key goes.
    Clear,
}

impl<V: Copy> TryCopy for MapDiff<V> {
    fn copy(&self) -> Result<Self, NoMemory> {
        Ok(match self {
            MapDiff::Replace { entries } => MapDiff::Replace {
                entries: entries.copy()?,
            },
            MapDiff::Insert { key, value } => MapDiff::Insert {
                key: *key,
                value: *value,
            },
            MapDiff::Update { key, value } => MapDiff::Update {
                key: *key,
                value: *value,
            },
            MapDiff::Remove { key } => MapDiff::Remove { key: *key },
            MapDiff::Clear => MapDiff::Clear,
        })
    }
}

/// Differences to be applied one after another.
pub type MapDiffs<V> = Items<MapDiff<V>>;
