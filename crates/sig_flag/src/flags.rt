ghost use Rattle.std.specs.Prelude.{◌≡◌, ◌<◌, length, [], ◌∷◌, None, Some, All, IfOk};
ghost use Rattle.sig_flag.specs.Accounts.{known, after_look, after_give};
ghost use Rattle.sig_flag.specs.Layouts.{IsLeafOf};
ghost use Rattle.sig_flag.specs.Machines.{account, Sits, IsSameSeat, HasNoTurn, HasTurn, Has, IsShown, IsTake, MayGive, IsShape, IsMade, IsReadyList, IsHeard, AreBack, IsEnd};

use crate::accounts::Account;
use crate::closing::{ClosingRoom, ready_tasks, shut, take_all};
use crate::opening::{deal, open};
use crate::plays::{About, Give, Look, Take};
use crate::rule::{FlagKey, ToldRule};
use crate::shape::{FlagShape, LeafPlan, LeafPlans};
use crate::words::{is_held, version_in, word_of};
use atomic_table::{Seat, Shared, Table};
use sig_diff::{Items, NoMemory};
use sig_hist::{Kept, Version};
use std::alloc::Global;
use std::marker::{Brand, Model};

/// The states of sources.
pub type States<V> = Items<V>;

/// What a thread steps with.
pub type FlagSeat<V> = Seat<Option<V>, [Account; 0]>;

pub type FlagSeats<V> = Items<FlagSeat<V>>;

/// Whether each task is to be polled.
pub type ReadyList = Items<bool>;

/// The words and the slots of a machine.
pub type FlagTable<V> = Table<Option<V>, [Account; 0], FlagKey<V>, ToldRule<V>, Global>;

/// What the seats step on.
pub type FlagShared<V> = Shared<Option<V>, [Account; 0], FlagKey<V>, ToldRule<V>>;

/// What came of a take.
#[derive(Debug, Clone, Copy, PartialEq, Eq)]
pub enum Taken {
    /// The seat has the turn, and the source's state in its slot.
    Turn,
    /// Another has the turn: the word was found held.
    Held { word: u64 },
}

/// Sources with states `V` that seats edit in turns, and tasks that are told of it. A seat that has a source's turn has its state,
/// and gives both back.
#[derive(Drop)]
pub struct Flags<V: Kept> {
    pub(crate) table: FlagTable<V>,
    pub(crate) leaves: LeafPlans,
    /// How many tasks there are.
    pub(crate) tasks: usize,
    /// The room for what is answered at the end.
    room: ClosingRoom<V>,
}

impl<V: Kept> Model for Flags<V> {
    ghost use Rattle.std.specs.Prelude.{◌≡◌, length, vec_capacity};
    ghost use Rattle.sig_flag.specs.Machines.{Machine, IsLaid, IsRoom};
    ghost use Rattle.sig_flag.specs.Opening.{layout_of};

    ghost Value = { Machine };

    ghost view = { λ flags. record { id = flags.table.shared.table_id; layout = layout_of V.plan flags.table.shared.key } };

    ghost invariant = { λ flags. IsLaid flags.table.shared.table_id (layout_of V.plan flags.table.shared.key)
        × (flags.leaves ≡ flags.table.shared.key.leaves.value) × (flags.tasks ≡ length flags.table.shared.key.pollers.value)
        × IsRoom flags.room.states.items (vec_capacity flags.room.states) (length flags.table.shared.key.states.value)
        × IsRoom flags.room.ready.items (vec_capacity flags.room.ready) (length flags.table.shared.key.pollers.value) };
}

impl<V: Kept> Flags<V> {
    /// A machine of states without entries, and its seats in the order of their numbers, each with no turn. All bells are 0, and each task
    /// is to be polled. What `close` needs is reserved.
    pub fn new(
        alloc: Global,
        shape: FlagShape,
        states: States<V>,
    ) -> Result<(Flags<V>, FlagSeats<V>), NoMemory>
        requires { IsShape V.plan V.history shape states }
        ensures { IfOk result (λ made. IsMade V.plan V.history shape states made.0 made.1) }
    {
        let count = shape.seats;
        let tasks = shape.tasks.len();
        let room = ClosingRoom {
            states: Vec::with_capacity(alloc, states.len())?,
            ready: Vec::with_capacity(alloc, tasks)?,
        };
        let leaves = shape.leaves.copy()?;
        let (table, first) = open(alloc, shape, states)?;
        let seats = deal(alloc, &table.shared, first, count)?;
        let flags = Flags {
            table,
            leaves,
            tasks,
            room,
        };
        Ok((flags, seats))
    }

    /// The leaves, in the order of their numbers.
    pub fn leaves(&self) -> &[LeafPlan]
        ensures leaves { result.now ≡ self.now.layout.leaves }
        ensures range { All (IsLeafOf (length self.now.layout.plans) (length self.now.layout.pollers)) self.now.layout.leaves }
    {
        self.leaves.as_slice()
    }

    /// How many tasks it has.
    pub fn tasks(&self) -> usize
        ensures { result ≡ length self.now.layout.pollers }
    {
        self.tasks
    }

    /// What the source's word shows: how many entries it has and whether it is closed. No entry is seen by it.
    pub fn look(&self, seat: &mut FlagSeat<V>, source: usize) -> Version
        requires seat { Sits self.now seat.old }
        requires source { source < length self.now.layout.plans }
        ensures seat { IsSameSeat seat.old seat.new }
        ensures account { Has seat.new (after_look self.now.layout.leaves (account seat.old) source result) seat.old.me.1 }
        ensures shown { IsShown (known (account seat.old) source) result }
    {
        self.look_among::<Brand>(seat, source)
    }

    /// Tries to get the source's turn, and with it the source's state. All of the history is seen then.
    pub fn take(&self, seat: &mut FlagSeat<V>, source: usize) -> Taken
        requires seat { Sits self.now seat.old }
        requires source { source < length self.now.layout.plans }
        requires no_turn { HasNoTurn seat.old }
        ensures seat { IsSameSeat seat.old seat.new }
        ensures taken { IsTake V.plan V.history seat.old seat.new source result }
    {
        let word = self.table.shared.fetch_or::<Take<V>>(seat, source, 1);
        if is_held(word) {
            Taken::Held { word }
        } else {
            Taken::Turn
        }
    }

    /// Takes the state out of the slot of the source whose turn the seat has.
    pub fn out(&self, seat: &mut FlagSeat<V>, source: usize) -> V
        requires seat { Sits self.now seat.old }
        requires state { (state : V) × HasTurn seat.old source (Some state) }
        ensures seat { IsSameSeat seat.old seat.new }
        ensures state { HasTurn seat.old source (Some result) }
        ensures account { Has seat.new (account seat.old) ((source, None) ∷ []) }
    {
        match self.table.shared.exchange(seat, source, None) {
            Some(state) => state,
            None => unreachable!(),
        }
    }

    /// Puts a state into the slot of the source whose turn the seat has.
    pub fn put_in(&self, seat: &mut FlagSeat<V>, source: usize, state: V)
        requires seat { Sits self.now seat.old }
        requires empty { HasTurn seat.old source None }
        ensures seat { IsSameSeat seat.old seat.new }
        ensures account { Has seat.new (account seat.old) ((source, Some state) ∷ []) }
    {
        drop(self.table.shared.exchange(seat, source, Some(state)));
    }

    /// Gives the turn back, and with it the state in the slot, which is as it was or has one entry more, by this seat.
    pub fn give(&self, seat: &mut FlagSeat<V>, source: usize, count: u32, closed: bool)
        requires seat { Sits self.now seat.old }
        requires source { source < length self.now.layout.plans }
        requires state { (state : V) × HasTurn seat.old source (Some state) × MayGive V.plan V.history (account seat.old) source count closed state }
        ensures seat { IsSameSeat seat.old seat.new }
        ensures account { (state : V) → HasTurn seat.old source (Some state) → Has seat.new (after_give self.now.layout.leaves (account seat.old) source (V.history state)) [] }
    {
        self.give_among::<Brand>(seat, source, count, closed);
    }

    /// The states of all sources, and which tasks are to be polled, once all seats are back and none has a turn. It takes no memory.
    pub fn close(self, seats: FlagSeats<V>) -> (States<V>, ReadyList)
        requires { AreBack self seats }
        ensures states { IsEnd V.plan V.history self seats result.0 }
        ensures ready { IsReadyList self.layout seats result.1 }
        ensures heard { IsHeard V.plan V.history self.layout seats result.0 result.1 }
    {
        let Flags {
            table,
            leaves,
            tasks,
            room,
        } = self;
        let first = table.slot_count() + leaves.len();
        let ClosingRoom { states, ready } = room;
        let closed = shut(table, seats);
        let ready = ready_tasks(&closed, first, tasks, ready);
        (
            Items::from_vec(take_all(closed, states)),
            Items::from_vec(ready),
        )
    }

    fn look_among<A: About>(&self, seat: &mut FlagSeat<V>, source: usize) -> Version
        requires seat { Sits self.now seat.old }
        requires source { source < length self.now.layout.plans }
        requires leaves { self.now.layout.leaves ≡ A.leaves }
        ensures seat { IsSameSeat seat.old seat.new }
        ensures account { Has seat.new (after_look self.now.layout.leaves (account seat.old) source result) seat.old.me.1 }
        ensures shown { IsShown (known (account seat.old) source) result }
    {
        version_in(self.table.shared.load::<Look<A>>(seat, source))
    }

    fn give_among<A: About>(&self, seat: &mut FlagSeat<V>, source: usize, count: u32, closed: bool)
        requires seat { Sits self.now seat.old }
        requires source { source < length self.now.layout.plans }
        requires state { (state : V) × HasTurn seat.old source (Some state) × MayGive V.plan V.history (account seat.old) source count closed state }
        requires leaves { self.now.layout.leaves ≡ A.leaves }
        ensures seat { IsSameSeat seat.old seat.new }
        ensures account { (state : V) → HasTurn seat.old source (Some state) → Has seat.new (after_give self.now.layout.leaves (account seat.old) source (V.history state)) [] }
    {
        let word = word_of(count, closed);
        self.table.shared.store::<Give<V, A>>(seat, source, word);
    }
}
