//! Three views on one poller that follow two threads, each row against the view from scratch.
ghost use Rattle.std.specs.Prelude.{◌<◌, ◌^◌, length, All, IfSome, IfOk};
ghost use Rattle.sig_exec.specs.Jobs.{AreJobs};
ghost use Rattle.sig_hub.specs.Passes.{IsOf};
ghost use Rattle.trials.specs.Stages.{IsStage, IsWriting};

use crate::hubs::{finished_by_both, follow, last_writer, one, two};
use crate::stages::{Stage, Writing, edit_if_in};
use from_scratch::are_rows_right;
use sig_diff::{Content, Items, NoMemory, TryCopy, VecDiff};
use sig_exec::{Exec, JobRows};
use sig_expr::View;
use sig_hist::{Allowance, Edit, Plans, SourcePlan};
use sig_hub::{Closed, Hub, Left, PollPass, WriterPass};
use sig_script::read_script;
use std::alloc::{AllocError, Global};
use std::sync::Wait;
use std::test::Fail;
use std::thread;
use std::thread::Threads;

/// How many edits each of the two threads makes.
const EDITS: u32 = 500;

/// Views of a vector and of a cell.
const VIEWS: &str =
    r#"{"version":1,"sources":[{"name":"v","vector":[]},{"name":"c","cell":0}],"writers":[],"views":[{"name":"f","vector":{"sorted":{"rem":7},"of":{"filter":"even","of":{"vector":"v"}}}},{"name":"s","signal":{"sum":{"vector":"v"}}},{"name":"m","vector":{"of":{"vector":"v"},"map_by":[{"cell":"c"},{"len":{"vector":"v"}}]}}]}"#;

fn views(alloc: Global) -> Result<Items<View>, NoMemory>
    ensures { IfOk result (λ views. length views < 2 ^ 32) }
{
    let Ok(script) = read_script(alloc, VIEWS.as_bytes()) else {
        return Err(AllocError);
    };
    let mut views = Items::new(alloc);
    'views: for def in script.views.as_slice() {
        views.push(def.view.copy()?)?;
    }
    if views.len() > u32::MAX as usize {
        return Err(AllocError);
    }
    Ok(views)
}

/// An empty vector and a cell, which both threads may edit.
fn plans(alloc: Global) -> Result<Plans, NoMemory> {
    let vector = plan(alloc, Content::Vector(Items::new(alloc)), 2 * EDITS)?;
    two(alloc, vector, plan(alloc, Content::Cell(0), 1)?)
}

fn plan(alloc: Global, start: Content, cap: u32) -> Result<SourcePlan, NoMemory> {
    let first = Allowance {
        writer: 0,
        edits: EDITS,
    };
    let second = Allowance {
        writer: 1,
        edits: EDITS,
    };
    Ok(SourcePlan {
        start,
        cap,
        allow: two(alloc, first, second)?,
    })
}

/// The edit number `k` of a thread, and its source.
fn edit_of(is_first: bool, k: u32) -> (usize, Edit) {
    let value = i64::from(k);
    let edit = match (is_first, k % 4) {
        (true, 3) => Edit::Vector(VecDiff::RemoveAt { index: k / 8 }),
        (true, _) => Edit::Vector(VecDiff::Push { value }),
        (false, 0) => return (1, Edit::Set(value)),
        (false, 1) => Edit::Vector(VecDiff::UpdateAt { index: 0, value }),
        (false, _) => Edit::Vector(VecDiff::InsertAt { index: 0, value }),
    };
    (0, edit)
}

/// Makes a thread's edits, and leaves.
fn edit_all<R: Wait>(rt: &R, hub: &Hub, mut pass: WriterPass, is_first: bool) -> Left
    requires { IsOf hub.now.machine pass }
    ensures { IsOf hub.now.machine result }
{
    'edits: for k in 0..EDITS {
        let (source, edit) = edit_of(is_first, k);
        let _answer = edit_if_in(rt, hub, &mut pass, source, &edit);
    }
    hub.leave(rt, pass)
}

/// Two threads that edit.
fn edit_twice<R: Threads + Wait + Sync>(
    rt: &R,
    hub: &Hub,
    first: WriterPass,
    second: WriterPass,
) -> (Left, Left)
    requires first { IsOf hub.now.machine first }
    requires second { IsOf hub.now.machine second }
    ensures first { IsOf hub.now.machine result.0 }
    ensures second { IsOf hub.now.machine result.1 }
{
    thread::join(
        rt,
        move ||
            requires { IsOf hub.now.machine first }
            ensures { IsOf hub.entry.now.machine result }
        { edit_all(rt, hub, first, true) },
        move ||
            requires { IsOf hub.now.machine second }
            ensures { IsOf hub.entry.now.machine result }
        { edit_all(rt, hub, second, false) },
    )
}

/// Two threads that edit while the views are followed on this one.
fn edit_and_follow<R: Threads + Wait + Sync>(
    rt: &R,
    hub: &Hub,
    first: WriterPass,
    second: WriterPass,
    pass: PollPass,
    exec: Exec,
) -> ((Left, Left), Option<(PollPass, JobRows)>)
    requires first { IsOf hub.now.machine first }
    requires second { IsOf hub.now.machine second }
    requires jobs { AreJobs hub.now pass exec }
    ensures first { IsOf hub.now.machine result.0.0 }
    ensures second { IsOf hub.now.machine result.0.1 }
    ensures pass { IfSome result.1 (λ made. IsOf hub.now.machine made.0) }
{
    thread::join(
        rt,
        move ||
            requires { IsOf hub.now.machine first × IsOf hub.now.machine second }
            ensures { IsOf hub.entry.now.machine result.0 × IsOf hub.entry.now.machine result.1 }
        { edit_twice(rt, hub, first, second) },
        move ||
            requires { AreJobs hub.now pass exec }
            ensures { IfSome result (λ made. IsOf hub.entry.now.machine made.0) }
        { follow(rt, hub, pass, exec) },
    )
}

/// The hub at its end, and the rows of each view.
fn played<R: Threads + Wait + Sync>(
    rt: &R,
    alloc: Global,
    stage: Stage,
) -> Option<(Closed, JobRows)>
    requires { IsStage stage }
{
    let Stage {
        hub,
        mut writers,
        pass,
        exec,
    } = stage;
    let second = last_writer(&hub, &mut writers)?;
    let first = last_writer(&hub, &mut writers)?;
    let ((first, second), followed) = edit_and_follow(rt, &hub, first, second, pass, exec);
    let (pass, rows) = followed?;
    let closed = finished_by_both(alloc, hub, first, second, pass)?;
    Some((closed, rows))
}

/// Whether all rows of each view are right.
fn are_right(
    alloc: Global,
    views: &[View],
    closed: &Closed,
    rows: &JobRows,
) -> Result<bool, NoMemory> {
    let plans = plans(alloc)?;
    let sources = closed.sources().as_slice();
    if rows.len() != views.len() {
        return Ok(false);
    }
    'views: for (view, rows) in views.iter().zip(rows.as_slice()) {
        if !are_rows_right(alloc, view, plans.as_slice(), sources, rows.as_slice())? {
            return Ok(false);
        }
    }
    Ok(true)
}

#[test]
fn three_views_follow_two_threads(rt: HostRuntime) -> Result<(), Fail> {
    let views = views(rt.alloc())?;
    let stage = Stage::new(rt.alloc(), plans(rt.alloc())?, 2, views.as_slice())?;
    let (closed, rows) = played(&rt, rt.alloc(), stage).expect(&rt, "all views have ended");
    assert!(rt; are_right(rt.alloc(), views.as_slice(), &closed, &rows)?);
    Ok(())
}
