//! A list that one thread keeps up to date by small differences, while another thread edits what it is made of.
#![tactic(auto)]

ghost use Rattle.std.specs.Prelude.{◌≡◌, ◌∷◌, [], false, All, IfOk, IfSome};
ghost use Rattle.sig_exec.specs.Jobs.{AreJobs};
ghost use Rattle.sig_hist.specs.Histories.{is_leave};
ghost use Rattle.sig_hub.specs.Passes.{IsOf};

mod setting;

use crate::setting::{FEE, PRICES, one, sources, view};
use crossbeam_utils::Backoff;
use from_scratch::are_rows_right;
use sig_diff::{Items, NoMemory, VecDiff, apply, is_lawful};
use sig_exec::{Exec, JobRows, Open, Watch};
use sig_expr::View;
use sig_hist::Edit;
use sig_hub::{Closed, Hub, Left, PollPass, Returned, WriterPass};
use sig_view::{Body, Row};
use std::alloc::{AllocError, Global};
use std::io::Eprint;
use std::sync::Wait;
use std::thread::Threads;
use std::{io, thread};

/// One thread edits, and leaves.
fn edit<R: Wait>(rt: &R, hub: &Hub, mut pass: WriterPass) -> Left
    requires { IsOf hub.now.machine pass }
    ensures { IsOf hub.now.machine result }
{
    edit_one(rt, hub, &mut pass, PRICES, &push(25));
    edit_one(rt, hub, &mut pass, FEE, &Edit::Set(8));
    edit_one(rt, hub, &mut pass, PRICES, &push(7));
    edit_one(rt, hub, &mut pass, PRICES, &remove(0));
    edit_one(rt, hub, &mut pass, PRICES, &push(12));
    hub.leave(rt, pass)
}

fn push(value: i64) -> Edit
    ensures { is_leave result ≡ false }
{
    Edit::Vector(VecDiff::Push { value })
}

fn remove(index: u32) -> Edit
    ensures { is_leave result ≡ false }
{
    Edit::Vector(VecDiff::RemoveAt { index })
}

/// An edit of a source that the writer hasn't left.
fn edit_one<R: Wait>(rt: &R, hub: &Hub, pass: &mut WriterPass, source: usize, edit: &Edit)
    requires of { IsOf hub.now.machine pass.old }
    requires no_leave { is_leave edit.now ≡ false }
    ensures { IsOf hub.now.machine pass.new }
{
    if pass.is_in(source) {
        let _reply = hub.edit(rt, pass, source, edit);
    }
}

/// Another thread polls until the view has ended, and keeps a list of its own by the differences that come.
fn follow<R: Wait + Eprint>(
    rt: &R,
    alloc: Global,
    hub: &Hub,
    mut pass: PollPass,
    mut exec: Exec,
) -> Result<Followed, NoMemory>
    requires { AreJobs hub.now pass exec }
    ensures { IfOk result (λ followed. IsOf hub.now.machine followed.pass) }
{
    let mut list = Items::new(alloc);
    let mut seen = 0;
    let backoff = Backoff::new();
    'turns: for _ in rt.forever() {
        let turned = exec.turn(rt, hub, &mut pass, &Open);
        seen = apply_rows(rt, alloc, &mut list, exec.rows_so_far(0), seen)?;
        if turned.short {
            return Err(AllocError);
        }
        if turned.live == 0 {
            break 'turns;
        }
        backoff.snooze();
    }
    let rows = exec.rows();
    Ok(Followed { pass, rows, list })
}

/// What following the view gave.
#[derive(Drop)]
struct Followed {
    pass: PollPass,
    rows: JobRows,
    list: Items<i64>,
}

/// Applies the rows from a number on, and says how many there are.
fn apply_rows<R: Eprint>(
    rt: &R,
    alloc: Global,
    list: &mut Items<i64>,
    rows: &[Row],
    seen: usize,
) -> Result<usize, NoMemory> {
    'rows: for row in rows.iter().skip(seen) {
        if let Body::Vector(diffs) = &row.body {
            apply_all(rt, alloc, list, diffs.as_slice())?;
        }
    }
    Ok(rows.len())
}

/// Applies differences, and tells of each.
fn apply_all<R: Eprint>(
    rt: &R,
    alloc: Global,
    list: &mut Items<i64>,
    diffs: &[VecDiff<i64>],
) -> Result<(), NoMemory> {
    'diffs: for diff in diffs {
        apply_one(list, diff)?;
        let told = format!(in alloc; "{diff:?} gives {:?}", list.as_slice())?;
        let _ = rt.eprintln(told);
    }
    Ok(())
}

/// Changes the list by a difference, if that is lawful.
fn apply_one(list: &mut Items<i64>, diff: &VecDiff<i64>) -> Result<(), NoMemory> {
    let len = list.len();
    if len <= u32::MAX as usize && is_lawful(diff, len as u32) {
        apply(list, diff)?;
    }
    Ok(())
}

/// The edits, and what following the view gave meanwhile.
fn edit_and_follow<R: Threads + Wait + Eprint + Sync>(
    rt: &R,
    alloc: Global,
    hub: &Hub,
    writer: WriterPass,
    pass: PollPass,
    exec: Exec,
) -> (Left, Result<Followed, NoMemory>)
    requires writer { IsOf hub.now.machine writer }
    requires jobs { AreJobs hub.now pass exec }
    ensures left { IsOf hub.now.machine result.0 }
    ensures pass { IfOk result.1 (λ followed. IsOf hub.now.machine followed.pass) }
{
    thread::join(
        rt,
        move ||
            requires { IsOf hub.now.machine writer }
            ensures { IsOf hub.entry.now.machine result }
        { edit(rt, hub, writer) },
        move ||
            requires { AreJobs hub.now pass exec }
            ensures { IfOk result (λ followed. IsOf hub.entry.now.machine followed.pass) }
        { follow(rt, alloc, hub, pass, exec) },
    )
}

/// The hub at its end, the view's rows, and the list.
fn watched<R: Threads + Wait + Eprint + Sync>(
    rt: &R,
    alloc: Global,
    watch: Watch,
) -> Option<(Closed, JobRows, Items<i64>)>
    requires jobs { AreJobs watch.hub watch.pass watch.exec }
    requires writers { All (IsOf watch.hub.machine) watch.writers }
{
    let Watch {
        hub,
        mut writers,
        pass,
        exec,
    } = watch;
    let writer = writers.pop()?;
    let (left, followed) = edit_and_follow(rt, alloc, &hub, writer, pass, exec);
    let Followed { pass, rows, list } = followed.ok()?;
    let closed = finished(alloc, hub, left, pass)?;
    Some((closed, rows, list))
}

/// A hub that is finished with these passes.
fn finished(alloc: Global, hub: Hub, left: Left, pass: PollPass) -> Option<Closed>
    requires left { IsOf hub.machine left }
    requires pass { IsOf hub.machine pass }
{
    let Ok(left) = one(alloc, left) else {
        return None;
    };
    let Ok(pollers) = one(alloc, pass) else {
        return None;
    };
    hub.finish(Returned { left, pollers }).ok()
}

/// Prints the list, and whether each row shows the view from scratch.
fn tell(
    rt: &HostRuntime,
    views: &[View],
    closed: &Closed,
    rows: &JobRows,
    list: &Items<i64>,
) -> io::Result<()> {
    let plans = sources(rt.alloc())?;
    let (Some(view), Some(rows)) = (views.first(), rows.as_slice().first()) else {
        return Ok(());
    };
    let right = are_rows_right(
        rt.alloc(),
        view,
        plans.as_slice(),
        closed.sources().as_slice(),
        rows.as_slice(),
    )?;
    println!(rt; "the list at the end: {:?}", list.as_slice())?;
    println!(rt; "each row shows the view from scratch: {right}")
}

fn main(rt: HostRuntime) -> io::Result<()> {
    let views = one(rt.alloc(), view(rt.alloc())?)?;
    let plans = sources(rt.alloc())?;
    let Ok(watch) = Watch::new(rt.alloc(), plans, 1, views.as_slice()) else {
        return Err(AllocError)?;
    };
    match watched(&rt, rt.alloc(), watch) {
        Some((closed, rows, list)) => tell(&rt, views.as_slice(), &closed, &rows, &list),
        None => Err(AllocError)?,
    }
}
