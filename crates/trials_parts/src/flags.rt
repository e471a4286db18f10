ghost use Rattle.std.specs.Prelude.{◌≡◌, ◌<◌, ◌∷◌, [], length, IfOk};
ghost use Rattle.sig_flag.specs.Machines.{IsPolledBy, IsTaskOf};
ghost use Rattle.trials_parts.specs.Trial.{trial_source, trial_shape, IsReady, IsAtWork, IsOwing, IsTrial};

use crate::fixtures::{list, two};
use sig_diff::{Content, Items};
use sig_flag::{FlagSeat, FlagShape, Flags, LeafPlan, Taken};
use sig_hist::{Allowance, Edit, Kept, SourcePlan, SourceState};
use std::alloc::Global;
use std::process::Abort;
use std::test::Fail;

type Machine = Flags<SourceState>;

type Seat = FlagSeat<SourceState>;

/// A cell with the number 5, which the seats 0 and 1 may edit.
fn cells(alloc: Global) -> Result<Items<SourceState>, Fail>
    ensures { IfOk result (λ states. states ≡ trial_source ∷ []) }
{
    let by = |writer| Allowance { writer, edits: 3 };
    let plan = SourcePlan {
        start: Content::Cell(5),
        cap: 1,
        allow: list(alloc, &[by(0), by(1)])?,
    };
    let mut states = Items::new(alloc);
    states.push(SourceState::new(alloc, plan)?)?;
    Ok(states)
}

/// One source with one leaf, whose task the seat 1 polls.
fn shape(alloc: Global) -> Result<FlagShape, Fail>
    ensures { IfOk result (λ shape. shape ≡ trial_shape) }
{
    Ok(FlagShape {
        sources: 1,
        closed: list(alloc, &[false])?,
        leaves: list(alloc, &[LeafPlan { source: 0, task: 0 }])?,
        tasks: list(alloc, &[1])?,
        seats: 2,
    })
}

/// A machine with that cell and that leaf, and its two seats.
fn start(alloc: Global) -> Result<(Machine, Seat, Seat), Fail>
    ensures { IfOk result (λ made. IsTrial made.0 made.1 made.2) }
{
    let (flags, mut seats) = Flags::new(alloc, shape(alloc)?, cells(alloc)?)?;
    match (seats.pop(), seats.pop()) {
        (Some(second), Some(first)) => Ok((flags, first, second)),
        _ => unreachable!(),
    }
}

/// Gets the turn.
fn begin<R: Abort>(rt: &R, flags: &Machine, seat: &mut Seat)
    requires some_source { 0 < length flags.now.layout.plans }
    requires ready { IsReady flags.now 0 seat.old }
    ensures { IsAtWork flags.now 0 seat.new }
{
    match flags.take(seat, 0) {
        Taken::Turn => {}
        Taken::Held { word } => panic!(rt; "the source was held by {word}"),
    }
}

/// Finds the word held, as the turn's holder left it.
fn find_held<R: Abort>(rt: &R, flags: &Machine, seat: &mut Seat)
    requires some_source { 0 < length flags.now.layout.plans }
    requires ready { IsReady flags.now 1 seat.old }
    ensures { IsReady flags.now 1 seat.new }
{
    match flags.take(seat, 0) {
        Taken::Held { word } => assert!(rt; word == 1),
        Taken::Turn => panic!(rt; "another has the turn"),
    }
}

/// Sets the cell's number, and gives the turn back.
fn set(flags: &Machine, seat: &mut Seat) -> Result<(), Fail>
    requires some_source { 0 < length flags.now.layout.plans }
    requires leaves { flags.now.layout.leaves ≡ trial_shape.leaves }
    requires at_work { IsAtWork flags.now 0 seat.old }
    ensures { IfOk result (λ _. IsOwing flags.now 0 seat.new) }
{
    let mut state = flags.out(seat, 0);
    state.edit(0, &Edit::Set(9))?;
    let count = state.count();
    let closed = state.is_closed();
    flags.put_in(seat, 0, state);
    flags.give(seat, 0, count, closed);
    Ok(())
}

/// Finds whether the task was told.
fn find_told<R: Abort>(rt: &R, flags: &Machine, seat: &mut Seat, wanted: bool)
    requires task { IsTaskOf flags.now.layout 0 1 }
    requires ready { IsReady flags.now 1 seat.old }
    ensures { IsReady flags.now 1 seat.new }
{
    assert_eq!(rt; flags.collect(seat, 0), wanted);
}

/// Sets the leaf's bell, looks, and comes to rest at no entry, or finds so many.
fn rest<R: Abort>(rt: &R, flags: &Machine, seat: &mut Seat, wanted: u32)
    requires some_source { 0 < length flags.now.layout.plans }
    requires leaf { IsPolledBy flags.now.layout 0 1 }
    requires ready { IsReady flags.now 1 seat.old }
    ensures { IsReady flags.now 1 seat.new }
{
    flags.arm(seat, 0);
    flags.look(seat, 0);
    assert_eq!(rt; flags.look_last(seat, 0, 0).count, wanted);
}

/// Rings the leaf's bell, which was set, and tells the task.
fn ring_set<R: Abort>(rt: &R, flags: &Machine, seat: &mut Seat, was_told: bool)
    requires leaf { IsPolledBy flags.now.layout 0 1 }
    requires leaves { flags.now.layout.leaves ≡ trial_shape.leaves }
    requires task { IsTaskOf flags.now.layout 0 1 }
    requires owing { IsOwing flags.now 0 seat.old }
    ensures { IsReady flags.now 0 seat.new }
{
    if flags.ring(seat, 0) {
        assert_eq!(rt; flags.tell(seat, 0), was_told);
    } else {
        panic!(rt; "the bell wasn't set");
    }
}

/// Rings the leaf's bell, which wasn't set.
fn ring_unset<R: Abort>(rt: &R, flags: &Machine, seat: &mut Seat)
    requires leaf { IsPolledBy flags.now.layout 0 1 }
    requires owing { IsOwing flags.now 0 seat.old }
    ensures { IsReady flags.now 0 seat.new }
{
    if flags.ring(seat, 0) {
        panic!(rt; "the bell was set");
    }
}

#[test]
fn a_task_that_waits_is_told_once(rt: HostRuntime) -> Result<(), Fail> {
    let (flags, mut first, mut second) = start(rt.alloc())?;
    find_told(&rt, &flags, &mut second, true);
    find_told(&rt, &flags, &mut second, false);
    rest(&rt, &flags, &mut second, 0);
    begin(&rt, &flags, &mut first);
    find_held(&rt, &flags, &mut second);
    set(&flags, &mut first)?;
    ring_set(&rt, &flags, &mut first, false);
    rest(&rt, &flags, &mut second, 1);
    begin(&rt, &flags, &mut first);
    set(&flags, &mut first)?;
    ring_set(&rt, &flags, &mut first, true);
    begin(&rt, &flags, &mut first);
    set(&flags, &mut first)?;
    ring_unset(&rt, &flags, &mut first);
    find_told(&rt, &flags, &mut second, true);
    find_told(&rt, &flags, &mut second, false);
    let (states, ready) = flags.close(two(rt.alloc(), first, second)?);
    assert!(rt; states.len() == 1 && ready.as_slice() == [false].as_slice());
    Ok(())
}
