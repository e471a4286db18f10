//! The difference algebra: lists, the differences between two of them, and what a difference gives.
#![tactic(auto)]

mod algebra;
mod arithmetic;
mod boxed;
mod choosing;
mod contents;
mod copying;
mod differences;
mod entries;
mod functions;
mod lists;
mod map_algebra;
mod map_differences;
mod orders;
mod replaying;

pub use algebra::{apply, is_lawful};
pub use arithmetic::{clamped, class_of};
pub use boxed::Boxed;
pub use choosing::{LetIn, RaisedBy, chooses_same, list_for, signal_for};
pub use contents::{Content, Kind, Lists, Tagged};
pub use copying::TryCopy;
pub use differences::{Diffs, VecDiff};
pub use entries::Entries;
pub use functions::{Mapper, Tester, mapped, passing};
pub use lists::{Items, LeafList, Name, NoMemory, Text};
pub use map_algebra::{map_apply, map_is_lawful};
pub use map_differences::{MapDiff, MapDiffs};
pub use orders::in_order;
pub use replaying::{ReplayError, map_replay, replay};
