//! The turn of a source: a seat waits for it, has the source's state meanwhile, and gives both back.
ghost use Rattle.std.specs.Prelude.{◌≡◌, ◌<◌, ◌≤◌, [], length, true, None, Some, IfSome, IfOk};
ghost use Rattle.sig_flag.specs.Accounts.{known, after_give, leaves_on, struck};
ghost use Rattle.sig_flag.specs.Machines.{account, Sits, IsSameSeat, Has, HasNoTurn, HasTurn, OwesNothing};
ghost use Rattle.sig_hist.specs.Sources.{Source, is_among};
ghost use Rattle.sig_hub.specs.Turns.{HasTaken, MayEnd, HasGiven, HasRung, HasTelling, IsFetched, IsFetchedBy, IsNextRing, has_come};

use crossbeam_utils::Backoff;
use sig_diff::NoMemory;
use sig_flag::{FlagSeat, Flags, Taken};
use sig_hist::{FetchError, Fetched, Kept, SourceState, Version};
use std::sync::Wait;

pub type HubFlags = Flags<SourceState>;

pub type HubSeat = FlagSeat<SourceState>;

/// Tries until the seat has the source's turn.
fn wait_for_turn<R: Wait>(rt: &R, flags: &HubFlags, seat: &mut HubSeat, source: usize)
    requires seat { Sits flags.now seat.old }
    requires source { source < length flags.now.layout.plans }
    requires no_turn { HasNoTurn seat.old }
    ensures seat { IsSameSeat seat.old seat.new }
    ensures turn { (state : Source) × HasTaken seat.old seat.new source state (Some state) }
{
    let backoff = Backoff::new();
    'tries: for _ in rt.forever() {
        match flags.take(seat, source) {
            Taken::Turn => return,
            Taken::Held { .. } => backoff.snooze(),
        }
    }
    unreachable!()
}

/// Gets the turn of a source, and with it its state.
pub fn begin<R: Wait>(rt: &R, flags: &HubFlags, seat: &mut HubSeat, source: usize) -> SourceState
    requires seat { Sits flags.now seat.old }
    requires source { source < length flags.now.layout.plans }
    requires no_turn { HasNoTurn seat.old }
    ensures seat { IsSameSeat seat.old seat.new }
    ensures turn { HasTaken seat.old seat.new source result None }
{
    wait_for_turn(rt, flags, seat, source);
    flags.out(seat, source)
}

/// Looks into a source in its turn, if that is free: what enters from a position on. The turn goes back whatever comes of it.
pub fn fetch_in_turn(
    flags: &HubFlags,
    seat: &mut HubSeat,
    source: usize,
    from: Option<u32>,
) -> Result<Fetched, FetchError>
    requires seat { Sits flags.now seat.old }
    requires source { source < length flags.now.layout.plans }
    requires no_turn { HasNoTurn seat.old }
    requires nothing { OwesNothing seat.old }
    requires known { source < length (account seat.old).knows }
    requires from { IfSome from (λ position. position ≤ (known (account seat.old) source).count) }
    ensures { IsFetchedBy seat.old seat.new source from result }
{
    match flags.take(seat, source) {
        Taken::Held { word } => Err(FetchError::Again { word }),
        Taken::Turn => {
            let state = flags.out(seat, source);
            let fetched = fetched(&state, from);
            give(flags, seat, source, state);
            fetched.map_err(|_| FetchError::NoMemory)
        }
    }
}

/// What a source shows, and what enters from a position to the end of its history.
fn fetched(state: &SourceState, from: Option<u32>) -> Result<Fetched, NoMemory>
    requires { IfSome from (λ position. position ≤ length state.now.history) }
    ensures { IfOk result (IsFetched state.now from) }
{
    let entering = state.entering(from)?;
    let version = Version {
        count: state.count(),
        closed: state.is_closed(),
    };
    Ok(Fetched { version, entering })
}

/// Gives the turn of a source back, with its state, which is as it was or has one entry more. In the second case the tasks that
/// wait for the source are told.
pub fn end(flags: &HubFlags, seat: &mut HubSeat, source: usize, state: SourceState, came: bool)
    requires seat { Sits flags.now seat.old }
    requires source { source < length flags.now.layout.plans }
    requires turn { HasTurn seat.old source None }
    requires nothing { OwesNothing seat.old }
    requires state { MayEnd (account seat.old) source state }
    requires came { came ≡ has_come (account seat.old) source state }
    ensures { HasGiven seat.old seat.new source state }
{
    give(flags, seat, source, state);
    if came {
        ring_all(flags, seat, source);
    }
}

/// Gives the turn of a source back with its state, and tells nobody yet.
fn give(flags: &HubFlags, seat: &mut HubSeat, source: usize, state: SourceState)
    requires seat { Sits flags.now seat.old }
    requires source { source < length flags.now.layout.plans }
    requires turn { HasTurn seat.old source None }
    requires state { MayEnd (account seat.old) source state }
    ensures seat { IsSameSeat seat.old seat.new }
    ensures has { Has seat.new (after_give flags.now.layout.leaves (account seat.old) source state.history) [] }
{
    let count = state.count();
    let closed = state.is_closed();
    flags.put_in(seat, source, state);
    flags.give(seat, source, count, closed);
}

/// Rings the bell of each leaf of a source, and tells the tasks whose bells were set.
fn ring_all(flags: &HubFlags, seat: &mut HubSeat, source: usize)
    requires seat { Sits flags.now seat.old }
    requires rings { (account seat.old).rings ≡ leaves_on source flags.now.layout.leaves 0 }
    requires tells { (account seat.old).tells ≡ [] }
    ensures { HasRung seat.old seat.new }
{
    'leaves: for (leaf, plan) in flags.leaves().iter().enumerate() {
        if plan.source as usize == source {
            ring_one(flags, seat, leaf, plan.task as usize);
        }
    }
}

/// Rings the bell of a leaf, and tells its task if it was set.
fn ring_one(flags: &HubFlags, seat: &mut HubSeat, leaf: usize, task: usize)
    requires seat { Sits flags.now seat.old }
    requires leaf { IsNextRing flags.now.layout leaf task }
    requires owed { is_among leaf (account seat.old).rings ≡ true }
    requires tells { (account seat.old).tells ≡ [] }
    ensures seat { IsSameSeat seat.old seat.new }
    ensures has { HasTelling seat.new (record (account seat.old) { rings = struck leaf (account seat.old).rings; tells = [] }) seat.old.me.1 }
{
    if flags.ring(seat, leaf) {
        flags.tell(seat, task);
    }
}
