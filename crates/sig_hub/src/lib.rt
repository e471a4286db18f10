//! Sources that several threads edit: a hub that holds them, and a pass for each writer and each poller. Every source has
//! one legal history, in which every writer's edits stand once and in order.
#![tactic(auto)]

mod editing;
mod ending;
mod hub;
mod passes;
mod plans;
mod polling;
mod starting;
mod stations;
mod turns;

pub use ending::{Closed, FinishError, Returned, TaskList};
pub use hub::{Hub, Passes};
pub use passes::{Left, Lefts, PollPass, PollPasses, WriterPass, WriterPasses};
pub use plans::{HubPlan, PollerOf};
pub use polling::{Polling, Told};
