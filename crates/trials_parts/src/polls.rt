ghost use Rattle.std.specs.Prelude.{◌≡◌, ◌≤◌, ◌∷◌, [], length, IfOk};
ghost use Rattle.sig_hist.specs.Ports.{IsSoundPort};
ghost use Rattle.sig_hist.specs.Sources.{IsPlan};
ghost use Rattle.sig_view.specs.Tasks.{IsReady};
ghost use Rattle.trials_parts.specs.Moving.{IsOfVector, IsReadyPort, known};

use crate::fixtures::{allowed, let_go, list};
use crate::moving::{Moving, Push, Refusal};
use sig_diff::{Boxed, Content, NoMemory, VecDiff};
use sig_expr::{Caps, VecExpr, View};
use sig_hist::{FetchError, Free, SourcePlan};
use sig_view::{Body, Polled, ViewTask};
use std::alloc::Global;
use std::test::Fail;

/// The port of the vector that starts with 4 and 1, and to which the writer 7 pushes.
fn port(
    alloc: Global,
    leaves: usize,
    pushes: &[Push],
    refusals: &[Refusal],
) -> Result<Moving, NoMemory>
    requires { length pushes.now ≤ 3 }
    ensures { IfOk result (λ port. IsReadyPort port leaves) }
{
    Moving::new(alloc, plan(alloc)?, 7, leaves, pushes, refusals)
}

fn plan(alloc: Global) -> Result<SourcePlan, NoMemory>
    ensures plan { IfOk result IsPlan }
    ensures cap { IfOk result (λ plan. plan.cap ≡ 8) }
    ensures allow { IfOk result (λ plan. plan.allow ≡ record { writer = 7; edits = 3 } ∷ []) }
{
    Ok(SourcePlan {
        start: Content::Vector(list(alloc, &[4, 1])?),
        cap: 8,
        allow: allowed(alloc, 7, 3)?,
    })
}

#[tactic(auto, using(crate::proofs::Ready::once_is))]
fn once() -> View
    ensures { IsOfVector result 1 }
{
    View::Vector(VecExpr::Vector(0))
}

#[tactic(auto, using(crate::proofs::Ready::twice_is))]
fn twice(alloc: Global) -> Result<View, NoMemory>
    ensures { IfOk result (λ view. IsOfVector view 2) }
{
    let first = Boxed::new(alloc, VecExpr::Vector(0))?;
    let second = Boxed::new(alloc, VecExpr::Vector(0))?;
    Ok(View::Vector(VecExpr::Concat(first, second)))
}

/// The task of a view of the port's vector.
#[tactic(auto, using(crate::proofs::Ready::ready_at_first))]
fn watch(
    alloc: Global,
    port: &Moving,
    view: View,
    leaves: usize,
    caps: &Caps,
) -> Result<ViewTask, NoMemory>
    requires port { IsReadyPort port.now leaves }
    requires view { IsOfVector view leaves }
    requires few { leaves ≤ 2 }
    requires caps { caps.now ≡ 8 ∷ [] }
    ensures { IfOk result (IsReady (known port.now)) }
{
    let _leaves = leaves;
    ViewTask::new(alloc, view, caps, 0)
}

/// The answer to a poll, unless the view has ended.
fn poll(port: &mut Moving, task: &mut ViewTask) -> Option<Polled<Free>>
    requires { IsReady (known port.old) task.old }
    ensures { IsReady (known port.new) task.new }
{
    if task.is_ended() {
        return None;
    }
    Some(task.poll(port, Free))
}

/// What one difference is to be.
#[derive(Clone, Copy)]
enum Wanted {
    Replace(&'static [i64]),
    Push(i64),
    InsertAt(u32, i64),
}

fn is_wanted(diff: &VecDiff<i64>, wanted: Wanted) -> bool {
    match (diff, wanted) {
        (VecDiff::Replace { values }, Wanted::Replace(wanted)) => values.as_slice() == wanted,
        (VecDiff::Push { value }, Wanted::Push(wanted)) => *value == wanted,
        (VecDiff::InsertAt { index, value }, Wanted::InsertAt(place, wanted)) => {
            *index == place && *value == wanted
        }
        _ => false,
    }
}

/// Whether an answer is a row at these positions, by one difference.
fn is_row(
    answer: &Option<Polled<Free>>,
    positions: &[u32],
    wanted: Wanted,
    word: Option<u64>,
) -> bool {
    match answer {
        Some(Polled::Batch { row, held, .. }) => match &row.body {
            Body::Vector(diffs) => {
                let is_it = matches!(diffs.as_slice(), [diff] if is_wanted(diff, wanted));
                is_it && row.at.as_slice() == positions && *held == word
            }
            _ => false,
        },
        _ => false,
    }
}

/// Whether a poll gives a row at these positions, by one difference.
fn gives_row(
    port: &mut Moving,
    task: &mut ViewTask,
    positions: &[u32],
    wanted: Wanted,
    word: Option<u64>,
) -> bool
    requires { IsReady (known port.old) task.old }
    ensures { IsReady (known port.new) task.new }
{
    let answer = poll(port, task);
    let is_it = is_row(&answer, positions, wanted, word);
    let_go(answer);
    is_it
}

/// Whether a poll answers that this word is held.
fn is_held(port: &mut Moving, task: &mut ViewTask, held: u64) -> bool
    requires { IsReady (known port.old) task.old }
    ensures { IsReady (known port.new) task.new }
{
    matches!(poll(port, task), Some(Polled::Again { word, .. }) if word == held)
}

#[test]
fn the_first_row_waits_for_a_held_word(rt: HostRuntime) -> Result<(), Fail> {
    let caps = list(rt.alloc(), &[8])?;
    let error = FetchError::Again { word: 9 };
    let mut port = port(rt.alloc(), 1, &[], &[Refusal { fetch: 1, error }])?;
    let mut task = watch(rt.alloc(), &port, once(), 1, &caps)?;
    let held = is_held(&mut port, &mut task, 9);
    let row = gives_row(&mut port, &mut task, &[0], Wanted::Replace(&[4, 1]), None);
    let_go(task);
    assert!(rt; held && row);
    Ok(())
}

#[test]
fn a_row_comes_with_the_word_that_held_another_leaf(rt: HostRuntime) -> Result<(), Fail> {
    let caps = list(rt.alloc(), &[8])?;
    let error = FetchError::Again { word: 9 };
    let push = Push { look: 1, value: 7 };
    let mut port = port(rt.alloc(), 2, &[push], &[Refusal { fetch: 4, error }])?;
    let mut task = watch(rt.alloc(), &port, twice(rt.alloc())?, 2, &caps)?;
    let first = gives_row(
        &mut port,
        &mut task,
        &[0, 0],
        Wanted::Replace(&[4, 1, 4, 1]),
        None,
    );
    let second = gives_row(
        &mut port,
        &mut task,
        &[1, 0],
        Wanted::InsertAt(2, 7),
        Some(9),
    );
    let third = gives_row(&mut port, &mut task, &[1, 1], Wanted::Push(7), None);
    let_go(task);
    assert!(rt; first && second && third);
    Ok(())
}

#[test]
fn news_between_the_last_look_and_the_rest_gives_a_row(rt: HostRuntime) -> Result<(), Fail> {
    // The second look is that of the rest, and the sixth the first one after the wait.
    let caps = list(rt.alloc(), &[8])?;
    let pushes = [Push { look: 2, value: 7 }, Push { look: 6, value: 5 }];
    let mut port = port(rt.alloc(), 1, &pushes, &[])?;
    let mut task = watch(rt.alloc(), &port, once(), 1, &caps)?;
    let first = gives_row(&mut port, &mut task, &[0], Wanted::Replace(&[4, 1]), None);
    let news = gives_row(&mut port, &mut task, &[1], Wanted::Push(7), None);
    let waits = matches!(poll(&mut port, &mut task), Some(Polled::Pending));
    let told = gives_row(&mut port, &mut task, &[2], Wanted::Push(5), None);
    let_go(task);
    assert!(rt; first && news && waits && told);
    Ok(())
}

#[test]
fn a_view_that_found_no_memory_has_failed(rt: HostRuntime) -> Result<(), Fail> {
    let caps = list(rt.alloc(), &[8])?;
    let error = FetchError::NoMemory;
    let push = Push { look: 1, value: 7 };
    let mut port = port(rt.alloc(), 1, &[push], &[Refusal { fetch: 2, error }])?;
    let mut task = watch(rt.alloc(), &port, once(), 1, &caps)?;
    let first = gives_row(&mut port, &mut task, &[0], Wanted::Replace(&[4, 1]), None);
    let lost = matches!(poll(&mut port, &mut task), Some(Polled::NoMemory));
    let failed = matches!(poll(&mut port, &mut task), Some(Polled::Failed));
    let_go(task);
    assert!(rt; first && lost && failed);
    Ok(())
}
