//! How a machine is made: its words and slots, and a seat for each account.
ghost use Rattle.std.specs.Prelude.{◌≡◌, ◌<◌, ◌++◌, [], length, map, replicate, false, Some, IfOk};
ghost use Rattle.sig_flag.specs.Accounts.{opening_accounts};
ghost use Rattle.sig_flag.specs.Machines.{IsShape};
ghost use Rattle.sig_flag.specs.Opening.{IsOpened, layout_of};
ghost use Rattle.sig_flag.specs.Plays.{IsLeft, AreDealt};
ghost use Rattle.sig_flag.specs.Words.{word_of};

use crate::flags::{FlagSeat, FlagSeats, FlagShared, FlagTable, States};
use crate::plays::Peel;
use crate::rule::FlagKey;
use crate::shape::FlagShape;
use crate::words::word_of;
use atomic_table::Table;
use sig_diff::{Items, NoMemory};
use sig_hist::Kept;
use std::alloc::{AllocError, Global};
use std::iter;
use std::snapshot::Snapshot;

/// The words of sources without entries, of bells that aren't set, and of tasks that are told.
fn opening_words(
    alloc: Global,
    closed: &[bool],
    leaves: usize,
    tasks: usize,
) -> Result<Vec<u64>, NoMemory>
    ensures { IfOk result (λ words. words.items
        ≡ map (λ closed. word_of 0 closed) closed.now ++ replicate leaves 0 ++ replicate tasks 1) }
{
    closed
        .iter()
        .map(|closed| word_of(0, *closed))
        .chain(iter::repeat_n(0, leaves))
        .chain(iter::repeat_n(1, tasks))
        .collect(alloc)
}

/// The slots with all states at home.
fn opening_slots<V: Kept>(alloc: Global, states: States<V>) -> Result<Vec<Option<V>>, NoMemory>
    ensures { IfOk result (λ slots. slots.items ≡ map Some states) }
{
    let mut slots = Vec::with_capacity(alloc, states.len())?;
    'states: for state in states.into_vec() {
        slots.push(Some(state))?;
    }
    Ok(slots)
}

/// The table of a machine, and the seat that has all accounts.
pub fn open<V: Kept>(
    alloc: Global,
    shape: FlagShape,
    states: States<V>,
) -> Result<(FlagTable<V>, FlagSeat<V>), NoMemory>
    requires { IsShape V.plan V.history shape states }
    ensures { IfOk result (λ made. IsOpened V.plan shape states made.0.shared.key made.0.shared.table_id made.1) }
{
    let key = FlagKey {
        states: Snapshot::of(&states),
        leaves: Snapshot::of(&shape.leaves),
        pollers: Snapshot::of(&shape.tasks),
        seats: shape.seats,
    };
    let words = opening_words(
        alloc,
        shape.closed.as_slice(),
        shape.leaves.len(),
        shape.tasks.len(),
    )?;
    let slots = opening_slots(alloc, states)?;
    match Table::new(alloc, words.as_slice(), slots, &key) {
        Ok(made) => Ok(made),
        Err(_) => Err(AllocError),
    }
}

/// A seat for each account, in the order of their numbers.
pub fn deal<V: Kept>(
    alloc: Global,
    shared: &FlagShared<V>,
    mut first: FlagSeat<V>,
    count: u32,
) -> Result<FlagSeats<V>, NoMemory>
    requires words { 0 < shared.now.table_id.words }
    requires count { count ≡ shared.now.key.seats }
    requires first { IsLeft shared.now.table_id (layout_of V.plan shared.now.key) 0 shared.now.key.seats first }
    ensures { IfOk result (λ seats. (length seats ≡ count) × AreDealt shared.now.table_id (layout_of V.plan shared.now.key) seats) }
{
    let mut seats = Vec::with_capacity(alloc, count as usize)?;
    'seats: for _number in 0..count {
        seats.push(shared.split_seat::<Peel>(&mut first))?;
    }
    Ok(Items::from_vec(seats))
}
