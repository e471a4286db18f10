//! What each step tells. These types are for the proofs alone.
ghost use Rattle.std.specs.Prelude.{ℕ, List, []};
ghost use Rattle.sig_flag.specs.declared.shape.LeafPlan.{LeafPlan};
ghost use Rattle.sig_flag.specs.Plays.{IsLook, IsLastLook, IsTaking, IsGiving, IsArming, IsRinging, IsTelling, IsCollecting, first_alone, all_others, with_others, no_account};

use crate::accounts::Account;
use atomic_table::{Join, Play, Split};
use sig_hist::Kept;
use std::marker::{Brand, PhantomData};

/// What a step is about, as far as a play can't read it: the leaves of the machine, the leaf or the task, and how many entries of the leaf's
/// source are known.
pub trait About {
    ghost leaves: { List LeafPlan };

    ghost number: { ℕ };

    ghost at: { ℕ };
}

impl About for Brand {
    ghost leaves = { [] };

    ghost number = { 0 };

    ghost at = { 0 };
}

pub struct Look<A> {
    leaves: PhantomData<A>,
}

impl<V, A: About> Play<Option<V>, [Account; 0]> for Look<A> {
    ghost then = { IsLook A.leaves };
}

pub struct Take<V> {
    state: PhantomData<V>,
}

impl<V: Kept> Play<Option<V>, [Account; 0]> for Take<V> {
    ghost then = { IsTaking V.plan V.history };
}

pub struct Give<V, A> {
    state: PhantomData<(V, A)>,
}

impl<V: Kept, A: About> Play<Option<V>, [Account; 0]> for Give<V, A> {
    ghost then = { IsGiving V.plan V.history A.leaves };
}

pub struct Arm<A> {
    leaf: PhantomData<A>,
}

impl<V, A: About> Play<Option<V>, [Account; 0]> for Arm<A> {
    ghost then = { IsArming A.number };
}

pub struct Ring<A> {
    leaf: PhantomData<A>,
}

impl<V, A: About> Play<Option<V>, [Account; 0]> for Ring<A> {
    ghost then = { IsRinging A.leaves A.number };
}

pub struct Tell<A> {
    task: PhantomData<A>,
}

impl<V, A: About> Play<Option<V>, [Account; 0]> for Tell<A> {
    ghost then = { IsTelling A.number };
}

pub struct Collect<A> {
    task: PhantomData<A>,
}

impl<V, A: About> Play<Option<V>, [Account; 0]> for Collect<A> {
    ghost then = { IsCollecting A.leaves A.number };
}

pub struct LastLook<A> {
    leaf: PhantomData<A>,
}

impl<V, A: About> Play<Option<V>, [Account; 0]> for LastLook<A> {
    ghost then = { IsLastLook A.leaves A.number A.at };
}

/// The first account goes to a seat of its own.
pub struct Peel;

impl Split<[Account; 0]> for Peel {
    ghost left = { all_others };

    ghost right = { first_alone };
}

/// The accounts of another seat join those of a seat.
pub struct Gather;

impl Join<[Account; 0]> for Gather {
    ghost both = { with_others };

    ghost spent = { no_account };
}
