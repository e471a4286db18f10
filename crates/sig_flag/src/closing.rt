//! How a machine ends: its seats are made one, and the states are taken out of the slots.
ghost use Rattle.std.specs.Prelude.{◌≡◌, ◌+◌, ◌<◌, ◌≤◌, ◌++◌, [], length, map, vec_capacity, All};
ghost use Rattle.std.specs.Mem.Slots.{slots_items, slots_len, IsFull};
ghost use Rattle.sig_flag.specs.Closing.{Rests, AreHome, AreTaken, AreReady, AreCounted, IsShut, AreHeard};
ghost use Rattle.sig_flag.specs.Layouts.{IsLeafOf};
ghost use Rattle.sig_flag.specs.Machines.{account, HasNoTurn};
ghost use Rattle.sig_flag.specs.Opening.{layout_of};

use crate::flags::{FlagSeat, FlagSeats, FlagShared, FlagTable};
use crate::plays::Gather;
use atomic_table::Closed;
use sig_hist::Kept;
use std::alloc::Global;

/// What is reserved for the end: room for the states of all sources, and for whether each task is to be polled.
#[derive(Drop)]
pub struct ClosingRoom<V> {
    pub states: Vec<V>,
    pub ready: Vec<bool>,
}

/// Gives a seat the accounts of others.
fn gather<V: Kept>(shared: &FlagShared<V>, first: &mut FlagSeat<V>, mut seats: FlagSeats<V>)
    requires words { 0 < shared.now.table_id.words }
    requires first { first.old.table_id ≡ shared.now.table_id }
    requires seats { All (Rests shared.now.table_id) seats }
    ensures table { first.new.table_id ≡ first.old.table_id }
    ensures accounts { first.new.me.0 ≡ map account seats ++ first.old.me.0 }
{
    'seats: while let Some(seat) = seats.pop() {
        shared.join_seat::<Gather>(first, seat);
    }
}

/// The slots of a table whose seats are all back, with the states in them.
pub fn shut<V: Kept>(table: FlagTable<V>, mut seats: FlagSeats<V>) -> Closed<Option<V>, Global>
    requires words { 0 < table.shared.table_id.words }
    requires slots { table.shared.table_id.slots ≡ length table.shared.key.states.value }
    requires all { table.shared.key.seats ≤ length seats }
    requires rest { All (Rests table.shared.table_id) seats }
    requires no_turn { All HasNoTurn seats }
    requires leaves { All (IsLeafOf (length table.shared.key.states.value) (length table.shared.key.pollers.value)) table.shared.key.leaves.value }
    ensures full { IsFull result.slots × IsFull result.words }
    ensures words { slots_len result.words ≡ table.shared.table_id.words }
    ensures slots { IsShut V.plan V.history (map V.plan table.shared.key.states.value) seats (slots_items result.slots) }
    ensures counted { AreCounted (layout_of V.plan table.shared.key) seats (slots_items result.words) }
    ensures heard { AreHeard V.plan V.history (layout_of V.plan table.shared.key) seats (slots_items result.words) (slots_items result.slots) }
{
    match seats.pop() {
        None => table.close(),
        Some(mut first) => {
            gather(&table.shared, &mut first, seats);
            table.close_with(first)
        }
    }
}

/// The states in the slots. It takes no memory.
pub fn take_all<V: Kept>(mut closed: Closed<Option<V>, Global>, mut room: Vec<V>) -> Vec<V>
    requires full { IsFull closed.slots }
    requires home { AreHome (slots_items closed.slots) }
    requires empty { room.items ≡ [] }
    requires room { slots_len closed.slots ≤ vec_capacity room }
    ensures { AreTaken (slots_items closed.slots) (slots_len closed.slots) result.items }
{
    let count = closed.slot_count();
    'slots: for slot in 0..count {
        match closed.take(slot) {
            Some(state) => room.push_reserved(state),
            None => unreachable!(),
        }
    }
    closed.free();
    room
}

/// Whether each task is to be polled, by the ready words, which begin with the first of these places. It takes no memory.
pub fn ready_tasks<V: Kept>(
    closed: &Closed<Option<V>, Global>,
    first: usize,
    count: usize,
    mut room: Vec<bool>,
) -> Vec<bool>
    requires full { IsFull closed.now.words }
    requires words { first + count ≤ slots_len closed.now.words }
    requires empty { room.items ≡ [] }
    requires room { count ≤ vec_capacity room }
    ensures { AreReady (slots_items closed.now.words) first count result.items }
{
    'tasks: for task in 0..count {
        room.push_reserved(closed.word(first + task) == 1);
    }
    room
}
