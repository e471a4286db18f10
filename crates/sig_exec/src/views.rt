//! A hub for views, and the executor of each of its pollers. View number v is the task v, the pollers take the tasks in turn, and the leaves of
//! a view follow those of the views before it.
ghost use Rattle.std.specs.Prelude.{◌≡◌, ◌^◌, ◌<◌, ◌++◌, true, length, map, All, IfOk, OnOk};
ghost use Rattle.sig_expr.specs.Leaves.{leaves};
ghost use Rattle.sig_expr.specs.Shapes.{view_tree};
ghost use Rattle.sig_exec.specs.Jobs.{work_of, works_of};
ghost use Rattle.sig_exec.specs.Views.{AreJobsOf, IsViewJob, StartsFor, fits, leaf_of, leaves_from, plan_for, pollers_from};

use crate::exec::Exec;
use crate::jobs::{Job, Jobs};
use sig_diff::{Items, NoMemory, TryCopy};
use sig_expr::{Caps, View, leaves};
use sig_flag::{LeafPlan, LeafPlans};
use sig_hist::Plans;
use sig_hub::{HubPlan, PollerOf};
use sig_view::ViewTask;
use std::alloc::Global;

/// The plan of a hub of these sources for views.
pub fn hub_plan(
    alloc: Global,
    sources: Plans,
    writers: u32,
    pollers: u32,
    views: &[View],
) -> Result<HubPlan, NoMemory>
    requires pollers { 0 < pollers }
    requires few { length views.now < 2 ^ 32 }
    ensures plan { IfOk result (λ plan. plan ≡ plan_for sources writers pollers views.now) }
    ensures leaves { IfOk result (λ plan. length plan.leaves < 2 ^ 64) }
{
    Ok(HubPlan {
        sources,
        leaves: leaf_plans(alloc, views)?,
        tasks: poller_numbers(alloc, views.len(), pollers)?,
        pollers,
        writers,
    })
}

/// The leaves of all views.
fn leaf_plans(alloc: Global, views: &[View]) -> Result<LeafPlans, NoMemory>
    requires { length views.now < 2 ^ 32 }
    ensures plans { IfOk result (λ plans. plans ≡ leaves_from 0 views.now) }
    ensures few { IfOk result (λ plans. length plans < 2 ^ 64) }
{
    let mut plans = Vec::new(alloc);
    'views: for (task, view) in views.iter().enumerate() {
        push_leaves(alloc, &mut plans, task as u32, view)?;
    }
    Ok(Items::from_vec(plans))
}

/// Adds the leaves of a task's view.
fn push_leaves(
    alloc: Global,
    plans: &mut Vec<LeafPlan>,
    task: u32,
    view: &View,
) -> Result<(), NoMemory>
    ensures { OnOk result (plans.new.items ≡ plans.old.items ++ map (leaf_of task) (leaves (view_tree view.now))) }
{
    let sources = leaves(alloc, view)?;
    'sources: for source in sources.as_slice() {
        let source = (*source).min(u32::MAX as usize) as u32;
        plans.push(LeafPlan { source, task })?;
    }
    Ok(())
}

/// The poller of each of so many tasks.
fn poller_numbers(alloc: Global, tasks: usize, pollers: u32) -> Result<PollerOf, NoMemory>
    requires pollers { 0 < pollers }
    requires few { tasks < 2 ^ 32 }
    ensures { IfOk result (λ numbers. numbers ≡ pollers_from pollers 0 tasks) }
{
    let mut numbers = Vec::with_capacity(alloc, tasks)?;
    'tasks: for task in 0..tasks {
        numbers.push(task as u32 % pollers)?;
    }
    Ok(Items::from_vec(numbers))
}

impl Exec {
    /// The executor of a poller of a hub for views: its jobs are the views with the numbers `poller`, `poller` + `pollers`, and so on, and
    /// `caps` are the caps of the sources.
    pub fn of_views(
        alloc: Global,
        views: &[View],
        caps: &Caps,
        pollers: u32,
        poller: u32,
    ) -> Result<Exec, NoMemory>
        requires pollers { 0 < pollers }
        requires few { length views.now < 2 ^ 32 }
        requires leaves { length (leaves_from 0 views.now) < 2 ^ 64 }
        requires fit { All (λ view. fits caps.now view ≡ true) views.now }
        ensures jobs { IfOk result (AreJobsOf views.now caps.now pollers poller) }
        ensures start { IfOk result (StartsFor views.now caps.now pollers poller) }
    {
        let jobs = jobs_of(alloc, views, caps, pollers, poller)?;
        Exec::new(alloc, jobs)
    }
}

/// A poller's jobs.
fn jobs_of(
    alloc: Global,
    views: &[View],
    caps: &Caps,
    pollers: u32,
    poller: u32,
) -> Result<Jobs, NoMemory>
    requires pollers { 0 < pollers }
    requires few { length views.now < 2 ^ 32 }
    requires leaves { length (leaves_from 0 views.now) < 2 ^ 64 }
    requires fit { All (λ view. fits caps.now view ≡ true) views.now }
    ensures jobs { IfOk result (λ jobs. AreJobsOf views.now caps.now pollers poller (works_of jobs)) }
    ensures few { IfOk result (λ jobs. length jobs < 2 ^ 32) }
{
    let mut jobs = Items::new(alloc);
    let mut first = 0;
    'views: for (number, view) in views.iter().enumerate() {
        let its_first = first;
        first += leaves(alloc, view)?.len();
        if number as u32 % pollers != poller {
            continue;
        }
        jobs.push((number, job_of(alloc, view, caps, number, its_first)?))?;
    }
    Ok(jobs)
}

/// The job of a view.
fn job_of(
    alloc: Global,
    view: &View,
    caps: &Caps,
    number: usize,
    first: usize,
) -> Result<Job, NoMemory>
    requires { fits caps.now view.now ≡ true }
    ensures { IfOk result (λ job. IsViewJob view.now caps.now number first (work_of number job)) }
{
    let task = ViewTask::new(alloc, view.copy()?, caps, first)?;
    Ok(Job::View(number, task))
}
