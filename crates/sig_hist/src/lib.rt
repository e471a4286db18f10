//! Sources: what an edit changes and answers, the history of a source, and how a view is told of it.
#![tactic(auto)]

mod bells;
mod changes;
mod edits;
mod entering;
mod laws;
mod plain;
mod plans;
mod ports;
mod sources;
mod writers;

pub use bells::PlainLeaf;
pub use changes::execute;
pub use edits::{Edit, Entry, History, Reply};
pub use laws::closed_is_whole;
pub use plain::{Free, Plain};
pub use plans::{Allowance, Allowances, EditError, Plans, SourcePlan};
pub use ports::{Condition, Entering, FetchError, Fetched, Met, Port, Rested, Version};
pub use sources::{Kept, SourceState};
