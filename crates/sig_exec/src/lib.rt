//! An executor: views that are polled as their tasks are told, while other threads edit the sources.
#![tactic(auto)]

mod exec;
mod gate;
mod jobs;
mod turns;
mod views;
mod watch;

pub use exec::Exec;
pub use gate::{Gate, Open};
pub use jobs::{Job, JobRows, Jobs, Turned};
pub use views::hub_plan;
pub use watch::{Watch, WatchError};
