ghost use Rattle.std.specs.Prelude.{◌≡◌};

use sig_diff::{Entries, Items, NoMemory, TryCopy, VecDiff};

/// What an entry of a history says that its caller did.
#[derive(Debug, Drop)]
pub enum Edit {
    /// A difference of a vector.
    Vector(VecDiff<i64>),
    /// A cell's new number.
    Set(i64),
    /// A cell's new number, where it is another one.
    SetNeq(i64),
    /// A number to be added to a cell's, stopping at the ends of i64.
    Add(i64),
    /// A key of a map and its new value.
    Put(i64, i64),
    /// A key of a map that goes.
    Delete(i64),
    /// The whole map.
    Load(Entries<i64>),
    /// Every key goes.
    Wipe,
    /// The caller makes no more edits.
    Leave,
}

/// The answer to an edit.
#[derive(Debug, Clone, Copy, PartialEq, Eq)]
pub enum Reply {
    Fine,
    /// The old element, number or value.
    Was(i64),
    /// The cell has that number already.
    Same,
    /// The map doesn't have the key.
    Absent,
    /// The difference isn't lawful for the vector, whose length this is.
    OutOfRange { len: u32 },
    /// The source would have more elements than its cap. This is how many it has.
    Long { len: u32 },
}

/// An edit as it stands in a history, with its caller's number and its reply.
#[derive(Debug, Drop)]
pub struct Entry {
    pub caller: u32,
    pub edit: Edit,
    pub reply: Reply,
}

pub type History = Items<Entry>;

impl TryCopy for Edit {
    fn copy(&self) -> Result<Self, NoMemory> {
        Ok(match self {
            Edit::Vector(diff) => Edit::Vector(diff.copy()?),
            Edit::Set(number) => Edit::Set(*number),
            Edit::SetNeq(number) => Edit::SetNeq(*number),
            Edit::Add(number) => Edit::Add(*number),
            Edit::Put(key, value) => Edit::Put(*key, *value),
            Edit::Delete(key) => Edit::Delete(*key),
            Edit::Load(entries) => Edit::Load(entries.copy()?),
            Edit::Wipe => Edit::Wipe,
            Edit::Leave => Edit::Leave,
        })
    }
}

impl TryCopy for Entry {
    fn copy(&self) -> Result<Self, NoMemory> {
        Ok(Entry {
            caller: self.caller,
            edit: self.edit.copy()?,
            reply: self.reply,
        })
    }
}
