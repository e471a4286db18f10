//! Views that choose by signals: filters and maps whose elements go by the signal of their class, and one signal or list of several.
#![tactic(auto)]

mod filtering;
mod mapping;
mod picking;
mod switching;

pub use filtering::FilterBy;
pub use mapping::MapBy;
pub use picking::Pick;
pub use switching::Switch;
