//! Lists of lists: one list behind another, and a list of each element.
#![tactic(auto)]

mod flattening;
mod joining;
mod runs;

pub use flattening::Flatten;
pub use joining::Concat;
