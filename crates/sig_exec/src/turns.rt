//! One job's turn: it is polled where its task has a token, until it isn't held up.
ghost use Rattle.std.specs.Prelude.{◌≡◌, ◌+◌, ◌≤◌, false, length};
ghost use Rattle.sig_exec.specs.Jobs.{HasGone, HasTurned, HasWorked, IsIn, IsJob, Keeps, StaysForOthers, token_of};
ghost use Rattle.sig_flag.specs.Machines.{IsTaskOf};
ghost use Rattle.sig_hist.specs.Ports.{IsSoundPort};
ghost use Rattle.sig_hub.specs.Passes.{IsOf};
ghost use Rattle.sig_hub.specs.Polls.{IsSamePoller, port_of};
ghost use Rattle.sig_view.specs.Tasks.{first_of, is_ended};
ghost use Rattle.sig_view.specs.Watching.{HasWatched, IsWatching};

use crate::gate::Gate;
use crate::jobs::{Phase, Work};
use crossbeam_utils::Backoff;
use sig_hub::{Hub, PollPass, Polling, Told};
use sig_view::{Watched, WatchedView};
use std::alloc::Global;
use std::mem;
use std::sync::Wait;

/// A job's turn, and how many rows it gave. The gate is told of each.
pub fn turn_one<R: Wait, G: Gate>(
    rt: &R,
    alloc: Global,
    hub: &Hub,
    pass: &mut PollPass,
    gate: &G,
    work: &mut Work,
) -> u32
    requires of { IsOf hub.now.machine pass.old }
    requires sound { IsSoundPort (port_of pass.old) }
    requires job { IsJob hub.now pass.old work.old }
    ensures same { IsSamePoller pass.old pass.new }
    ensures others { StaysForOthers (port_of pass.old) (port_of pass.new) work.old.task }
    ensures job { IsJob hub.now pass.new work.new }
    ensures worked { HasWorked (port_of pass.old) (port_of pass.new) work.old work.new }
    ensures rows { length work.old.view.rows + result ≡ length work.new.view.rows }
    ensures one_more { result ≤ 1 }
{
    let given = work.view.rows.len();
    let phase = mem::replace(&mut work.phase, Phase::Ended);
    work.phase = next_phase(rt, alloc, hub, pass, work.task, &mut work.view, phase);
    if work.view.rows.len() == given {
        return 0;
    }
    gate.after_row(work.number, given);
    1
}

/// Polls a job's view where it is live and its task has a token or is told by now. How the job stands then.
fn next_phase<R: Wait>(
    rt: &R,
    alloc: Global,
    hub: &Hub,
    pass: &mut PollPass,
    task: usize,
    view: &mut WatchedView,
    phase: Phase,
) -> Phase
    requires of { IsOf hub.now.machine pass.old }
    requires task { IsTaskOf hub.now.machine.layout task pass.old.account.number }
    requires sound { IsSoundPort (port_of pass.old) }
    requires first { (port_of pass.old).task (first_of view.old.task) ≡ task }
    requires is_in { IsIn hub.now (port_of pass.old) task view.old phase }
    ensures same { IsSamePoller pass.old pass.new }
    ensures others { StaysForOthers (port_of pass.old) (port_of pass.new) task }
    ensures is_in { IsIn hub.now (port_of pass.new) task view.new result }
    ensures turned { HasTurned (port_of pass.old) (port_of pass.new) task view.old view.new phase result }
{
    match phase {
        Phase::Live(told) => poll_if_told(rt, alloc, hub, pass, task, view, told),
        Phase::Ended => Phase::Ended,
        Phase::Lost => Phase::Lost,
    }
}

/// Polls a view with the token that its task has or is told by now, if there is one. How its job stands then.
fn poll_if_told<R: Wait>(
    rt: &R,
    alloc: Global,
    hub: &Hub,
    pass: &mut PollPass,
    task: usize,
    view: &mut WatchedView,
    told: Option<Told>,
) -> Phase
    requires of { IsOf hub.now.machine pass.old }
    requires task { IsTaskOf hub.now.machine.layout task pass.old.account.number }
    requires first { (port_of pass.old).task (first_of view.old.task) ≡ task }
    requires watching { IsWatching (port_of pass.old) view.old }
    requires open { is_ended view.old.task ≡ false }
    requires keeps { Keeps hub.now (port_of pass.old) task told }
    ensures same { IsSamePoller pass.old pass.new }
    ensures others { StaysForOthers (port_of pass.old) (port_of pass.new) task }
    ensures is_in { IsIn hub.now (port_of pass.new) task view.new result }
    ensures gone { HasGone (port_of pass.old) (port_of pass.new) task view.old view.new result }
{
    match told {
        Some(told) => poll(rt, alloc, hub, pass, view, told),
        None => match hub.collect(pass, task) {
            Some(told) => poll(rt, alloc, hub, pass, view, told),
            None => Phase::Live(None),
        },
    }
}

/// Polls a view until no held word is in its way. How its job stands then.
fn poll<R: Wait>(
    rt: &R,
    alloc: Global,
    hub: &Hub,
    pass: &mut PollPass,
    view: &mut WatchedView,
    told: Told,
) -> Phase
    requires of { IsOf hub.now.machine pass.old }
    requires watching { IsWatching (port_of pass.old) view.old }
    requires open { is_ended view.old.task ≡ false }
    requires told { told ≡ token_of hub.now ((port_of pass.old).task (first_of view.old.task)) }
    requires holds { (port_of pass.old).tokens ((port_of pass.old).task (first_of view.old.task)) ≡ 1 }
    ensures same { IsSamePoller pass.old pass.new }
    ensures others { StaysForOthers (port_of pass.old) (port_of pass.new) ((port_of pass.old).task (first_of view.old.task)) }
    ensures is_in { IsIn hub.now (port_of pass.new) ((port_of pass.old).task (first_of view.old.task)) view.new result }
    ensures gone { HasGone (port_of pass.old) (port_of pass.new) ((port_of pass.old).task (first_of view.old.task)) view.old view.new result }
{
    let backoff = Backoff::new();
    let mut token = told;
    'polls: for _ in rt.forever() {
        match poll_once(alloc, hub, pass, view, token) {
            Watched::Row { told, .. } => return Phase::Live(Some(told)),
            Watched::Pending => return Phase::Live(None),
            Watched::Again { told, .. } => token = told,
            Watched::Ended => return Phase::Ended,
            Watched::NoMemory => return Phase::Lost,
        }
        backoff.snooze();
    }
    unreachable!()
}

/// One poll of a view on its pass.
fn poll_once(
    alloc: Global,
    hub: &Hub,
    pass: &mut PollPass,
    view: &mut WatchedView,
    told: Told,
) -> Watched<Told>
    requires of { IsOf hub.now.machine pass.old }
    requires watching { IsWatching (port_of pass.old) view.old }
    requires open { is_ended view.old.task ≡ false }
    requires told { told ≡ token_of hub.now ((port_of pass.old).task (first_of view.old.task)) }
    ensures same { IsSamePoller pass.old pass.new }
    ensures watched { HasWatched (port_of pass.old) (port_of pass.new) view.old view.new told result }
{
    view.poll(alloc, &mut Polling { hub, pass }, told)
}
