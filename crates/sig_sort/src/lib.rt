//! The sorted view of a list.
#![tactic(auto)]

mod sorting;

pub use sorting::SortedOp;
