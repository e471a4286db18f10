ghost use Rattle.std.specs.Prelude.{◌≡◌, ◌+◌, ◌≤◌, List, [], ◌++◌, length, vec_capacity, IfOk, IfErr};
ghost use Rattle.sig_hub.specs.Ends.{AreOf, IsFinished, IsRefusal, listed};
ghost use Rattle.sig_hub.specs.Passes.{Pass};
ghost use Rattle.sig_hub.specs.Seats.{AreSeatsOf, IsRoomFor};

use crate::hub::Hub;
use crate::passes::{Left, Lefts, PollPass, PollPasses};
use crate::turns::HubSeat;
use sig_diff::{Items, NoMemory};
use sig_flag::States;
use sig_hist::SourceState;
use std::alloc::{AllocError, Global};
use std::marker::Model;

/// The numbers of tasks.
pub type TaskList = Items<usize>;

/// The passes that come back.
#[derive(Drop)]
pub struct Returned {
    pub left: Lefts,
    pub pollers: PollPasses,
}

/// Why a hub can't be finished. All comes back.
#[derive(Drop)]
pub enum FinishError {
    /// So many passes were made, and fewer were given back.
    Outstanding {
        made: u32,
        given: u32,
        hub: Hub,
        back: Returned,
    },
    /// Memory was wanting.
    NoMemory {
        hub: Hub,
        back: Returned,
    },
}

/// A hub that is finished. Nothing else makes one.
#[derive(Drop)]
pub struct Closed {
    states: States<SourceState>,
    told: TaskList,
}

impl Model for Closed {
    ghost use Rattle.sig_hub.specs.Ends.{ClosedState};

    ghost Value = { ClosedState };

    ghost view = { λ closed. record { sources = closed.states; told = closed.told } };
}

impl Closed {
    /// Each source with its history.
    pub fn sources(&self) -> &States<SourceState>
        ensures { result.now ≡ self.now.sources }
    {
        &self.states
    }

    /// The tasks that are to be polled, in rising order.
    pub fn told(&self) -> &TaskList
        ensures { result.now ≡ self.now.told }
    {
        &self.told
    }
}

/// What the end of a hub needs: room for the seats of all passes, and for the numbers of all tasks.
struct FinishingRoom {
    seats: Vec<HubSeat>,
    told: Vec<usize>,
}

impl Hub {
    /// The sources and the tasks that are to be polled, once all passes are back. The memory for it is taken before anything is undone.
    pub fn finish(self, back: Returned) -> Result<Closed, FinishError>
        requires { AreOf self back }
        ensures ok { IfOk result (IsFinished self back) }
        ensures err { IfErr result (IsRefusal self back) }
    {
        let made = self.writers + self.pollers;
        let given = back.left.len().saturating_add(back.pollers.len());
        if given < made as usize {
            return Err(FinishError::Outstanding {
                made,
                given: given as u32,
                hub: self,
                back,
            });
        }
        match room_for(self.alloc, &back, self.flags.tasks()) {
            Ok(room) => Ok(close(self, back, room)),
            Err(_) => Err(FinishError::NoMemory { hub: self, back }),
        }
    }
}

/// Room for the seats of all passes that come back, and for so many tasks.
fn room_for(alloc: Global, back: &Returned, tasks: usize) -> Result<FinishingRoom, NoMemory>
    ensures { IfOk result (IsRoomFor back.now tasks) }
{
    match back.left.len().checked_add(back.pollers.len()) {
        Some(count) => Ok(FinishingRoom {
            seats: Vec::with_capacity(alloc, count)?,
            told: Vec::with_capacity(alloc, tasks)?,
        }),
        None => Err(AllocError),
    }
}

/// Closes a hub whose passes are all back.
fn close(hub: Hub, back: Returned, room: FinishingRoom) -> Closed
    requires back { AreOf hub back }
    requires all { hub.writers + hub.pollers ≤ length back.left + length back.pollers }
    requires room { IsRoomFor back (length hub.machine.layout.pollers) room }
    ensures { IsFinished hub back result }
{
    let Hub { flags, .. } = hub;
    let Returned { left, pollers } = back;
    let FinishingRoom { seats, told } = room;
    let seats = with_left(seats, left);
    let seats = with_pollers(seats, pollers);
    let (states, ready) = flags.close(Items::from_vec(seats));
    let told = Items::from_vec(ready_tasks(ready.as_slice(), told));
    Closed { states, told }
}

/// The tasks that are ready, in rising order.
fn ready_tasks(ready: &[bool], mut told: Vec<usize>) -> Vec<usize>
    requires empty { told.items ≡ [] }
    requires room { length ready.now ≤ vec_capacity told }
    ensures { result.items ≡ listed ready.now 0 }
{
    'tasks: for (task, is_ready) in ready.iter().enumerate() {
        if *is_ready {
            told.push_reserved(task);
        }
    }
    told
}

/// The seats with those of passes that have left behind them.
fn with_left(mut seats: Vec<HubSeat>, left: Lefts) -> Vec<HubSeat>
    requires { length seats.items + length left ≤ vec_capacity seats }
    ensures seats { (passes : List Pass) → AreSeatsOf passes seats.items → AreSeatsOf (passes ++ left) result.items }
    ensures capacity { vec_capacity result ≡ vec_capacity seats }
{
    'left: for pass in left.into_vec() {
        let Left { station } = pass;
        seats.push_reserved(station.into_seat());
    }
    seats
}

/// The seats with those of pollers' passes behind them.
fn with_pollers(mut seats: Vec<HubSeat>, pollers: PollPasses) -> Vec<HubSeat>
    requires { length seats.items + length pollers ≤ vec_capacity seats }
    ensures seats { (passes : List Pass) → AreSeatsOf passes seats.items → AreSeatsOf (passes ++ pollers) result.items }
    ensures capacity { vec_capacity result ≡ vec_capacity seats }
{
    'pollers: for pass in pollers.into_vec() {
        let PollPass { station } = pass;
        seats.push_reserved(station.into_seat());
    }
    seats
}
