use crate::copying::TryCopy;
use crate::lists::{Items, NoMemory};

/// One difference between two lists. Indexes count from 0.
#[derive(Debug, Drop)]
pub enum VecDiff<T> {
    /// The list becomes these values.
    Replace { values: Items<T> },
    /// A value comes in before the item at the index, or at the end.
    InsertAt { index: u32, value: T },
    /// A value takes the place of the item at the index.
    UpdateAt { index: u32, value: T },
    /// The item at the index goes.
    RemoveAt { index: u32 },
    /// The item at the old index goes to the new index of the list without it.
    Move { old_index: u32, new_index: u32 },
    /// A value comes in at the end.
    Push { value: T },
    /// The last item goes.
    Pop,
    /// Every item goes.
    Clear,
}

impl<T: Copy> TryCopy for VecDiff<T> {
    fn copy(&self) -> Result<Self, NoMemory> {
        Ok(match self {
            VecDiff::Replace { values } => VecDiff::Replace {
                values: values.copy()?,
            },
            VecDiff::InsertAt { index, value } => VecDiff::InsertAt {
                index: *index,
                value: *value,
            },
            VecDiff::UpdateAt { index, value } => VecDiff::UpdateAt {
                index: *index,
                value: *value,
            },
            VecDiff::RemoveAt { index } => VecDiff::RemoveAt { index: *index },
            VecDiff::Move {
                old_index,
                new_index,
            } => VecDiff::Move {
                old_index: *old_index,
                new_index: *new_index,
            },
            VecDiff::Push { value } => VecDiff::Push { value: *value },
            VecDiff::Pop => VecDiff::Pop,
            VecDiff::Clear => VecDiff::Clear,
        })
    }
}

/// Differences to be applied one after another.
pub type Diffs<T> = Items<VecDiff<T>>;
