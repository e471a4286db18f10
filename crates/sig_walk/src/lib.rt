//! How far each leaf of a view has come along the history of its source, over any port: taking leaves along, fetching
//! them for the first time, and waiting.
#![tactic(auto)]

mod fetching;
mod waiting;
mod walk;

pub use fetching::fetch_all;
pub use waiting::Waited;
pub use walk::{Mark, Walk};
