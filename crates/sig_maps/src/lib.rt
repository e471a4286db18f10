//! Views of maps: the value at a key, a function at the values, and the keys, the values and the entries as lists.
#![tactic(auto)]

mod key;
mod lists;
mod values;

pub use key::KeyOf;
pub use lists::{EntriesOp, KeysOp, ValuesOp};
pub use values::MapValue;
