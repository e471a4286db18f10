//! The operators of a view as trees beside its expression: started on what its leaves hold, and stepped along a walk.
#![tactic(auto)]

mod banks;
mod choosing;
mod joining;
mod lists;
mod maps;
mod nodes;
mod signals;
mod starting;
mod starting_banks;
mod starting_lists;
mod starting_signals;
mod views;

pub use nodes::{ListBank, ListNode, MapNode, SignalBank, SignalNode, ViewNode};
pub use starting::view_node;
