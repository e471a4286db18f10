//! The flag machine: sources that several threads edit in turns, by single steps on shared words. Between any two
//! steps each source has one legal history, of which every seat has seen a front.
#![tactic(auto)]

mod accounts;
mod bells;
mod closing;
mod flags;
mod opening;
mod plays;
mod rule;
mod shape;
mod words;

pub use accounts::{Account, Hold, Knowledge, Watch};
pub use flags::{FlagSeat, FlagSeats, Flags, ReadyList, States, Taken};
pub use rule::{FlagKey, ToldRule};
pub use shape::{ClosedList, FlagShape, LeafPlan, LeafPlans, SeatNumbers};
