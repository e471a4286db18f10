use crate::accounts::Account;
use crate::shape::{LeafPlans, SeatNumbers};
use atomic_table::TableRule;
use sig_diff::Items;
use sig_hist::Kept;
use std::marker::PhantomData;
use std::snapshot::Snapshot;

/// What a machine is told once, when it is made.
#[derive(Drop)]
pub struct FlagKey<V> {
    /// The states of the sources at the start.
    pub states: Snapshot<Items<V>>,
    pub leaves: Snapshot<LeafPlans>,
    /// The seat that polls each task.
    pub pollers: Snapshot<SeatNumbers>,
    /// How many seats there are.
    pub seats: u32,
}

/// The told rule: what holds of the words, the states at home and what the seats know, between any two steps.
pub struct ToldRule<V> {
    state: PhantomData<V>,
}

impl<V: Kept> TableRule<Option<V>, [Account; 0], FlagKey<V>> for ToldRule<V> {
    ghost use Rattle.sig_flag.specs.Accounts.{opening_accounts};
    ghost use Rattle.sig_flag.specs.Opening.{layout_of};
    ghost use Rattle.sig_flag.specs.Told.{Told};

    ghost holds = { λ key. Told V.plan V.history (layout_of V.plan key) };

    ghost first = { λ key. opening_accounts (layout_of V.plan key) };
}
