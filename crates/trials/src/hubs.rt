//! Hubs whose sources are edited and polled by several threads.
ghost use Rattle.std.specs.Prelude.{◌≡◌, ◌∷◌, [], All, IfSome, IfOk};
ghost use Rattle.sig_exec.specs.Jobs.{AreJobs};
ghost use Rattle.sig_hub.specs.Passes.{IsOf};
ghost use Rattle.trials.specs.Stages.{IsStage, IsWriting};

use crate::stages::{Stage, Writing, edit_if_in};
use sig_diff::{Content, Items, NoMemory, VecDiff};
use sig_exec::{Exec, JobRows, Open};
use sig_expr::{VecExpr, View};
use sig_hist::{Allowance, Edit, EditError, Kept, Plans, Reply, SourcePlan};
use sig_hub::{Closed, FinishError, Hub, Left, Lefts, PollPass, Returned, WriterPass};
use sig_view::{Body, Row};
use std::alloc::{AllocError, Global};
use std::sync::Wait;
use std::test::Fail;
use std::thread;
use std::thread::Threads;

/// How often each of two threads pushes.
const PUSHES: u32 = 1000;

/// The list of one value.
pub fn one<T: Drop>(alloc: Global, value: T) -> Result<Items<T>, NoMemory>
    ensures { IfOk result (λ list. list ≡ value ∷ []) }
{
    let mut list = Items::new(alloc);
    list.push(value)?;
    Ok(list)
}

/// The list of two values.
pub fn two<T: Drop>(alloc: Global, first: T, second: T) -> Result<Items<T>, NoMemory>
    ensures { IfOk result (λ list. list ≡ first ∷ second ∷ []) }
{
    let mut list = one(alloc, first)?;
    list.push(second)?;
    Ok(list)
}

/// A hub of one empty vector, to which each writer may push so many numbers, and the view of it.
fn vector(alloc: Global, writers: u32, pushes: u32) -> Result<Stage, NoMemory>
    ensures { IfOk result IsStage }
{
    let mut allow = Items::new(alloc);
    for writer in 0..writers {
        allow.push(Allowance {
            writer,
            edits: pushes,
        })?;
    }
    let plan = SourcePlan {
        start: Content::Vector(Items::new(alloc)),
        cap: writers.saturating_mul(pushes).saturating_add(1),
        allow,
    };
    let plans: Plans = one(alloc, plan)?;
    let views = one(alloc, View::Vector(VecExpr::Vector(0)))?;
    Stage::new(alloc, plans, writers, views.as_slice())
}

fn push(value: i64) -> Edit {
    Edit::Vector(VecDiff::Push { value })
}

/// The pass of the last writer.
pub fn last_writer(hub: &Hub, writers: &mut Vec<Writing>) -> Option<WriterPass>
    requires { All (IsWriting hub.now.machine) writers.old.items }
    ensures pass { IfSome result (IsOf hub.now.machine) }
    ensures others { All (IsWriting hub.now.machine) writers.new.items }
{
    let _hub = hub;
    writers.pop()?.pass
}

/// Pushes numbers, and leaves.
fn push_all<R: Wait>(rt: &R, hub: &Hub, mut pass: WriterPass, pushes: u32) -> Option<Left>
    requires { IsOf hub.now.machine pass }
    ensures { IfSome result (IsOf hub.now.machine) }
{
    'pushes: for number in 0..pushes {
        let edit = push(i64::from(number));
        if !matches!(
            edit_if_in(rt, hub, &mut pass, 0, &edit),
            Some(Ok(Reply::Fine))
        ) {
            return None;
        }
    }
    Some(hub.leave(rt, pass))
}

/// The passes of two threads that have pushed so often.
fn push_twice<R: Threads + Wait + Sync>(
    rt: &R,
    hub: &Hub,
    first: WriterPass,
    second: WriterPass,
) -> (Option<Left>, Option<Left>)
    requires first { IsOf hub.now.machine first }
    requires second { IsOf hub.now.machine second }
    ensures first { IfSome result.0 (IsOf hub.now.machine) }
    ensures second { IfSome result.1 (IsOf hub.now.machine) }
{
    thread::join(
        rt,
        move ||
            requires { IsOf hub.now.machine first }
            ensures { IfSome result (IsOf hub.entry.now.machine) }
        { push_all(rt, hub, first, PUSHES) },
        move ||
            requires { IsOf hub.now.machine second }
            ensures { IfSome result (IsOf hub.entry.now.machine) }
        { push_all(rt, hub, second, PUSHES) },
    )
}

/// Polls until all views have ended. The rows of each, if no memory was wanting.
pub fn follow<R: Wait>(
    rt: &R,
    hub: &Hub,
    mut pass: PollPass,
    mut exec: Exec,
) -> Option<(PollPass, JobRows)>
    requires { AreJobs hub.now pass exec }
    ensures { IfSome result (λ made. IsOf hub.now.machine made.0) }
{
    if exec.run(rt, hub, &mut pass, &Open) {
        return None;
    }
    Some((pass, exec.rows()))
}

/// A view that is followed on this thread while another one pushes.
fn push_and_follow<R: Threads + Wait + Sync>(
    rt: &R,
    hub: &Hub,
    writer: WriterPass,
    pass: PollPass,
    exec: Exec,
) -> (Option<Left>, Option<(PollPass, JobRows)>)
    requires writer { IsOf hub.now.machine writer }
    requires jobs { AreJobs hub.now pass exec }
    ensures left { IfSome result.0 (IsOf hub.now.machine) }
    ensures pass { IfSome result.1 (λ made. IsOf hub.now.machine made.0) }
{
    thread::join(
        rt,
        move ||
            requires { IsOf hub.now.machine writer }
            ensures { IfSome result (IsOf hub.entry.now.machine) }
        { push_all(rt, hub, writer, PUSHES) },
        move ||
            requires { AreJobs hub.now pass exec }
            ensures { IfSome result (λ made. IsOf hub.entry.now.machine made.0) }
        { follow(rt, hub, pass, exec) },
    )
}

/// A hub that is finished with these passes.
fn finished(alloc: Global, hub: Hub, left: Lefts, pass: PollPass) -> Option<Closed>
    requires left { All (IsOf hub.machine) left }
    requires pass { IsOf hub.machine pass }
{
    let Ok(pollers) = one(alloc, pass) else {
        return None;
    };
    hub.finish(Returned { left, pollers }).ok()
}

/// Both writers' passes, once two threads have pushed.
fn both_pushed<R: Threads + Wait + Sync>(
    rt: &R,
    hub: &Hub,
    mut writers: Vec<Writing>,
) -> Option<(Left, Left)>
    requires { All (IsWriting hub.now.machine) writers.items }
    ensures first { IfSome result (λ left. IsOf hub.now.machine left.0) }
    ensures second { IfSome result (λ left. IsOf hub.now.machine left.1) }
{
    let second = last_writer(hub, &mut writers)?;
    let first = last_writer(hub, &mut writers)?;
    let (first, second) = push_twice(rt, hub, first, second);
    Some((first?, second?))
}

/// The hub of a stage, its writers and its poller's pass.
fn parts_of(stage: Stage) -> (Hub, Vec<Writing>, PollPass)
    requires { IsStage stage }
    ensures writers { All (IsWriting result.0.machine) result.1.items }
    ensures pass { IsOf result.0.machine result.2 }
{
    let Stage {
        hub,
        writers,
        pass,
        ..
    } = stage;
    (hub, writers, pass)
}

/// Two threads that push into one vector.
fn two_threads<R: Threads + Wait + Sync>(
    rt: &R,
    alloc: Global,
    hub: Hub,
    writers: Vec<Writing>,
    pass: PollPass,
) -> Option<Closed>
    requires writers { All (IsWriting hub.machine) writers.items }
    requires pass { IsOf hub.machine pass }
{
    match both_pushed(rt, &hub, writers) {
        Some((first, second)) => finished_by_both(alloc, hub, first, second, pass),
        None => None,
    }
}

/// A hub that is finished with the passes of both its writers.
pub fn finished_by_both(
    alloc: Global,
    hub: Hub,
    first: Left,
    second: Left,
    pass: PollPass,
) -> Option<Closed>
    requires first { IsOf hub.machine first }
    requires second { IsOf hub.machine second }
    requires pass { IsOf hub.machine pass }
{
    match two(alloc, first, second) {
        Ok(left) => finished(alloc, hub, left, pass),
        Err(_) => None,
    }
}

/// A view that waits, and is told by another thread: the hub at its end, and the view's rows.
fn wait_and_follow<R: Threads + Wait + Sync>(
    rt: &R,
    alloc: Global,
    stage: Stage,
) -> Option<(Closed, JobRows)>
    requires { IsStage stage }
{
    let Stage {
        hub,
        mut writers,
        pass,
        exec,
    } = stage;
    let writer = last_writer(&hub, &mut writers)?;
    let (left, followed) = push_and_follow(rt, &hub, writer, pass, exec);
    let (pass, rows) = followed?;
    let left = one(alloc, left?).ok()?;
    let closed = finished(alloc, hub, left, pass)?;
    Some((closed, rows))
}

/// A hub of one vector whose view has its first row, and then waits.
fn polled_twice<R: Wait>(rt: &R, alloc: Global, pushes: u32) -> Result<Stage, NoMemory>
    ensures { IfOk result IsStage }
{
    let mut stage = vector(alloc, 1, pushes)?;
    if poll_twice(rt, &mut stage) {
        return Ok(stage);
    }
    Err(AllocError)
}

/// Whether the first of two turns gives a row and the second none.
fn poll_twice<R: Wait>(rt: &R, stage: &mut Stage) -> bool
    requires { IsStage stage.old }
    ensures { IsStage stage.new }
{
    stage.poll(rt).rows == 1 && stage.poll(rt).rows == 0
}

/// Whether a task that waits is told by an edit and not before it, and a second edit is refused; and then by the leave.
fn tells_of_one_edit<R: Wait>(
    rt: &R,
    hub: &Hub,
    mut writer: WriterPass,
    pass: &mut PollPass,
    exec: &mut Exec,
) -> (bool, Left)
    requires writer { IsOf hub.now.machine writer }
    requires jobs { AreJobs hub.now pass.old exec.old }
    ensures left { IsOf hub.now.machine result.1 }
    ensures jobs { AreJobs hub.now pass.new exec.new }
{
    let untold = exec.turn(rt, hub, pass, &Open).rows == 0;
    let made = edit_if_in(rt, hub, &mut writer, 0, &push(4));
    let told = exec.turn(rt, hub, pass, &Open).rows == 1;
    let spent = edit_if_in(rt, hub, &mut writer, 0, &push(5));
    let left = hub.leave(rt, writer);
    let is_as_told = untold
        && told
        && matches!(made, Some(Ok(Reply::Fine)))
        && matches!(spent, Some(Err(EditError::Spent { made: 1 })))
        && !exec.run(rt, hub, pass, &Open);
    (is_as_told, left)
}

/// One edit, one leave and what is told of them. Whether all answers are as they are to be.
fn told_once<R: Wait>(rt: &R, alloc: Global) -> Result<bool, NoMemory> {
    let stage = polled_twice(rt, alloc, 1)?;
    edit_and_finish(rt, alloc, stage)
}

fn edit_and_finish<R: Wait>(rt: &R, alloc: Global, stage: Stage) -> Result<bool, NoMemory>
    requires { IsStage stage }
{
    let Stage {
        hub,
        mut writers,
        mut pass,
        mut exec,
    } = stage;
    let Some(writer) = last_writer(&hub, &mut writers) else {
        return Ok(false);
    };
    let (is_as_told, left) = tells_of_one_edit(rt, &hub, writer, &mut pass, &mut exec);
    Ok(is_finished_late(alloc, hub, left, pass)? && is_as_told)
}

/// Whether a hub isn't finished while a writer's pass is missing, and then is, with two entries and nobody to tell.
fn is_finished_late(alloc: Global, hub: Hub, left: Left, pass: PollPass) -> Result<bool, NoMemory>
    requires left { IsOf hub.machine left }
    requires pass { IsOf hub.machine pass }
{
    let too_few = Returned {
        left: Items::new(alloc),
        pollers: one(alloc, pass)?,
    };
    let Err(
        FinishError::Outstanding {
            made: 2,
            given: 1,
            hub,
            back,
        },
    ) = hub.finish(too_few)
    else {
        return Ok(false);
    };
    let all = Returned {
        left: one(alloc, left)?,
        pollers: back.pollers,
    };
    Ok(match hub.finish(all) {
        Ok(closed) => closed.told().is_empty() && has_entries(&closed, 2),
        Err(_) => false,
    })
}

/// Whether the one source of a hub has so many entries, and is closed.
fn has_entries(closed: &Closed, count: u32) -> bool {
    match closed.sources().as_slice() {
        [source] => source.count() == count && source.is_closed(),
        _ => false,
    }
}

/// Whether, after an edit and the leave, the executor says that its job is lost exactly where the rows have no end.
fn is_lost_or_ends<R: Wait>(rt: &R, stage: Stage) -> bool
    requires { IsStage stage }
{
    let Stage {
        hub,
        mut writers,
        mut pass,
        mut exec,
    } = stage;
    let Some(mut writer) = last_writer(&hub, &mut writers) else {
        return false;
    };
    exec.turn(rt, &hub, &mut pass, &Open);
    edit_if_in(rt, &hub, &mut writer, 0, &push(4));
    drop(hub.leave(rt, writer));
    let short = exec.run(rt, &hub, &mut pass, &Open);
    short != ends(&exec.rows())
}

fn ends(rows: &JobRows) -> bool {
    match rows.as_slice() {
        [rows] => matches!(
            rows.as_slice(),
            [
                ..,
                Row {
                    body: Body::Ended,
                    ..
                }
            ]
        ),
        _ => false,
    }
}

#[test]
fn two_threads_push_into_one_source(rt: HostRuntime) -> Result<(), Fail> {
    let stage = vector(rt.alloc(), 2, PUSHES)?;
    let (hub, writers, pass) = parts_of(stage);
    let closed = two_threads(&rt, rt.alloc(), hub, writers, pass);
    let closed = closed.expect(&rt, "both threads have pushed");
    assert!(rt; has_entries(&closed, 2 * PUSHES + 2));
    Ok(())
}

#[test]
fn a_view_that_waits_is_told_by_another_thread(rt: HostRuntime) -> Result<(), Fail> {
    let stage = polled_twice(&rt, rt.alloc(), PUSHES)?;
    let followed = wait_and_follow(&rt, rt.alloc(), stage);
    let (closed, rows) = followed.expect(&rt, "the view has ended");
    assert!(rt; has_entries(&closed, PUSHES + 1));
    assert!(rt; matches!(rows.as_slice(), [rows] if rows.len() > 2));
    Ok(())
}

#[test]
fn a_task_is_told_once_of_an_edit(rt: HostRuntime) -> Result<(), Fail> {
    assert!(rt; told_once(&rt, rt.alloc())?);
    Ok(())
}

#[test]
fn a_job_is_lost_exactly_where_its_rows_have_no_end(rt: HostRuntime) -> Result<(), Fail> {
    let stage = vector(rt.alloc(), 1, 1)?;
    assert!(rt; is_lost_or_ends(&rt, stage));
    Ok(())
}
