//! What an executor is given to do, and what it keeps of that.
ghost use Rattle.std.specs.Prelude.{◌≡◌};
ghost use Rattle.sig_exec.specs.Jobs.{is_live, is_lost, work_of};

use sig_diff::Items;
use sig_hub::Told;
use sig_view::{Rows, ViewTask, WatchedView};
use std::alloc::Global;

/// What an executor is given to do: it polls a view. The number is the one that a gate is told.
#[derive(Drop)]
pub enum Job {
    View(usize, ViewTask),
}

/// Jobs, each with the number of its task.
pub type Jobs = Items<(usize, Job)>;

/// The rows of each job, in the order of the jobs.
pub type JobRows = Items<Rows>;

/// What a turn did.
#[derive(Debug, Clone, Copy, PartialEq, Eq)]
pub struct Turned {
    /// How many rows its polls gave, the ended ones too.
    pub rows: u32,
    /// How many jobs are live.
    pub live: u32,
    /// Whether a job was lost to want of memory, in this turn or before it.
    pub short: bool,
}

/// How a job stands between two turns.
#[derive(Drop)]
pub enum Phase {
    /// Its view goes on. A token that a poll gave back is kept.
    Live(Option<Told>),
    /// Its view has ended.
    Ended,
    /// Memory was wanting. It is polled no more.
    Lost,
}

/// A job with the rows that it gave.
#[derive(Drop)]
pub struct Work {
    /// The number of its task.
    pub task: usize,
    /// The number of its view at the gate.
    pub number: usize,
    pub view: WatchedView,
    pub phase: Phase,
}

impl Work {
    /// A job before its first poll.
    pub fn new(alloc: Global, task: usize, job: Job) -> Work
        ensures { result ≡ work_of task job }
    {
        let Job::View(number, view) = job;
        Work {
            task,
            number,
            view: WatchedView {
                task: view,
                rows: Rows::new(alloc),
            },
            phase: Phase::Live(None),
        }
    }

    /// Whether its view goes on.
    pub fn is_live(&self) -> bool
        ensures { result ≡ is_live self.now }
    {
        matches!(self.phase, Phase::Live(_))
    }

    /// Whether it was lost to want of memory.
    pub fn is_lost(&self) -> bool
        ensures { result ≡ is_lost self.now }
    {
        matches!(self.phase, Phase::Lost)
    }
}
