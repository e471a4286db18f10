ghost use Rattle.std.specs.Prelude.{◌≡◌, ◌<◌, ◌^◌, length, map, All, Some, IfOk};
ghost use Rattle.sig_exec.specs.Jobs.{AreJobs};
ghost use Rattle.sig_hub.specs.Passes.{IsOf};
ghost use Rattle.trials.specs.Stages.{IsStage, IsWriting};

use sig_diff::NoMemory;
use sig_exec::{Exec, Open, Turned, Watch};
use sig_expr::View;
use sig_hist::{Edit, EditError, Plans, Reply};
use sig_hub::{Hub, PollPass, WriterPass, WriterPasses};
use std::alloc::{AllocError, Global};
use std::sync::Wait;

/// A hub with one poller and an executor of views over it, between two events.
#[derive(Drop)]
pub struct Stage {
    pub hub: Hub,
    pub writers: Vec<Writing>,
    pub pass: PollPass,
    pub exec: Exec,
}

/// A writer of a hub, and how many of its edits it has made.
#[derive(Drop)]
pub struct Writing {
    /// Its pass, until it has left.
    pub pass: Option<WriterPass>,
    pub done: usize,
}

impl Stage {
    /// A hub of these sources with so many writers, and the views before their first polls. Where there is none, memory is said to be wanting.
    pub fn new(alloc: Global, plans: Plans, writers: u32, views: &[View]) -> Result<Stage, NoMemory>
        requires { length views.now < 2 ^ 32 }
        ensures { IfOk result IsStage }
    {
        match Watch::new(alloc, plans, writers, views) {
            Ok(watch) => Stage::of(alloc, watch),
            Err(_) => Err(AllocError),
        }
    }

    fn of(alloc: Global, watch: Watch) -> Result<Stage, NoMemory>
        requires jobs { AreJobs watch.hub watch.pass watch.exec }
        requires writers { All (IsOf watch.hub.machine) watch.writers }
        ensures { IfOk result IsStage }
    {
        let Watch {
            hub,
            writers,
            pass,
            exec,
        } = watch;
        let writers = ready_to_write(alloc, writers)?;
        Ok(Stage {
            hub,
            writers,
            pass,
            exec,
        })
    }

    /// A writer's next event: an edit, or after the last one its leave.
    pub fn write<R: Wait>(&mut self, rt: &R, writer: usize, edits: &[(usize, Edit)])
        requires { IsStage self.old }
        ensures { IsStage self.new }
    {
        let Stage { hub, writers, .. } = self;
        if writer < writers.len() {
            write_next(rt, hub, &mut writers[writer], edits);
        }
    }

    /// A turn of the executor.
    pub fn poll<R: Wait>(&mut self, rt: &R) -> Turned
        requires { IsStage self.old }
        ensures { IsStage self.new }
    {
        let Stage {
            hub,
            pass,
            exec,
            ..
        } = self;
        exec.turn(rt, hub, pass, &Open)
    }
}

/// Writers that have made nothing yet.
fn ready_to_write(alloc: Global, passes: WriterPasses) -> Result<Vec<Writing>, NoMemory>
    ensures { IfOk result (λ writers. map (λ writing. writing.pass) writers.items ≡ map Some passes) }
{
    let mut writers = Vec::with_capacity(alloc, passes.len())?;
    'passes: for pass in passes.into_vec() {
        writers.push(Writing {
            pass: Some(pass),
            done: 0,
        })?;
    }
    Ok(writers)
}

/// A writer's next event: an edit, or after the last one its leave.
fn write_next<R: Wait>(rt: &R, hub: &Hub, writing: &mut Writing, edits: &[(usize, Edit)])
    requires { IsWriting hub.now.machine writing.old }
    ensures { IsWriting hub.now.machine writing.new }
{
    let Some(mut pass) = writing.pass.take() else {
        return;
    };
    let Some((source, edit)) = edits.get(writing.done) else {
        drop(hub.leave(rt, pass));
        return;
    };
    writing.done = writing.done.saturating_add(1);
    let _answer = edit_if_in(rt, hub, &mut pass, *source, edit);
    writing.pass = Some(pass);
}

/// An edit of a source, where the pass may make one.
pub fn edit_if_in<R: Wait>(
    rt: &R,
    hub: &Hub,
    pass: &mut WriterPass,
    source: usize,
    edit: &Edit,
) -> Option<Result<Reply, EditError>>
    requires { IsOf hub.now.machine pass.old }
    ensures { IsOf hub.now.machine pass.new }
{
    if !pass.is_in(source) || matches!(edit, Edit::Leave) {
        return None;
    }
    Some(hub.edit(rt, pass, source, edit))
}
