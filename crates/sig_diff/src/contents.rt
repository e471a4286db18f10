ghost use Rattle.std.specs.Prelude.{◌≡◌};
ghost use Rattle.sig_diff.specs.Contents.{kind_of};

use crate::copying::TryCopy;
use crate::entries::Entries;
use crate::lists::{Items, NoMemory};

/// What a source holds.
#[derive(Debug, Drop)]
pub enum Content {
    /// A cell's one number.
    Cell(i64),
    /// A vector's numbers.
    Vector(Items<i64>),
    /// A map's keys and values.
    Map(Entries<i64>),
}

/// The kinds of source.
#[derive(Debug, Clone, Copy, PartialEq, Eq)]
pub enum Kind {
    Cell,
    Vector,
    Map,
}

/// Lists of numbers.
pub type Lists = Items<Items<i64>>;

/// An element of an enumerated list: its tag stays with it for as long as it is in the list, and no other element ever has it.
#[derive(Debug, Clone, Copy, PartialEq, Eq)]
pub struct Tagged {
    pub tag: u128,
    pub value: i64,
}

impl Content {
    pub fn kind(&self) -> Kind
        ensures { result ≡ kind_of self.now }
    {
        match self {
            Content::Cell(_) => Kind::Cell,
            Content::Vector(_) => Kind::Vector,
            Content::Map(_) => Kind::Map,
        }
    }
}

impl TryCopy for Content {
    fn copy(&self) -> Result<Self, NoMemory> {
        Ok(match self {
            Content::Cell(value) => Content::Cell(*value),
            Content::Vector(items) => Content::Vector(items.copy()?),
            Content::Map(entries) => Content::Map(entries.copy()?),
        })
    }
}
