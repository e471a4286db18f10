ghost use Rattle.std.specs.Prelude.{◌≡◌, IfOk};

use crate::lists::{Items, NoMemory};
use std::alloc::Global;

/// A value whose copy takes memory.
pub trait TryCopy {
    /// An equal value.
    fn copy(&self) -> Result<Self, NoMemory>
        ensures { IfOk result (λ copy. copy ≡ self.now) };
}

impl<T: TryCopy + Drop> TryCopy for Items<T> {
    fn copy(&self) -> Result<Self, NoMemory> {
        let mut copies = Items::new(self.alloc());
        'items: for item in self.as_slice() {
            copies.push(item.copy()?)?;
        }
        Ok(copies)
    }
}

/// A list of numbers, as a part of a list of lists.
impl TryCopy for Items<i64> {
    fn copy(&self) -> Result<Self, NoMemory> {
        Items::copy(self)
    }
}
