//! A poller's pass with its hub, as a port, and the tokens with which its tasks are polled.
ghost use Rattle.std.specs.Prelude.{◌≡◌, ◌≤◌, true, is_some, IfSome, IfOk, IfErr};
ghost use Rattle.sig_flag.specs.Accounts.{after_collect};
ghost use Rattle.sig_flag.specs.Machines.{IsTaskOf};
ghost use Rattle.sig_hist.specs.Ports.{IsSoundPort, IsSight, IsFetch, IsFetchRefusal, IsRest, armed, looked, is_open};
ghost use Rattle.sig_hub.specs.Passes.{IsOf};
ghost use Rattle.sig_hub.specs.Polls.{Token, polls, port_of, collected, IsSamePoller};

use crate::hub::Hub;
use crate::passes::PollPass;
use crate::stations::Station;
use crate::turns::{HubFlags, fetch_in_turn};
use sig_hist::{FetchError, Fetched, Port, Rested, Version};
use std::marker::Model;
use std::snapshot::Snapshot;

impl Station {
    /// What the source of a leaf shows now. No entry is seen by it.
    fn look(&mut self, flags: &HubFlags, leaf: usize) -> Version
        requires of { IsOf flags.now self.old }
        requires own { polls self.old leaf ≡ true }
        ensures sight { IsSight (port_of self.old) leaf result }
        ensures state { port_of self.new ≡ looked (port_of self.old) ((port_of self.old).source leaf) result }
        ensures sound { IsSoundPort (port_of self.new) }
        ensures same { IsSamePoller self.old self.new }
    {
        let source = flags.leaves()[leaf].source as usize;
        flags.look(&mut self.seat, source)
    }

    /// What enters a leaf from a position on, if nobody has the turn of its source.
    fn fetch(
        &mut self,
        flags: &HubFlags,
        leaf: usize,
        from: Option<u32>,
    ) -> Result<Fetched, FetchError>
        requires of { IsOf flags.now self.old }
        requires own { polls self.old leaf ≡ true }
        requires from { IfSome from (λ position. position ≤ (port_of self.old).count ((port_of self.old).source leaf)) }
        ensures ok { IfOk result (IsFetch (port_of self.old) (port_of self.new) leaf from) }
        ensures err { IfErr result (IsFetchRefusal (port_of self.old) (port_of self.new) leaf) }
        ensures sound { IsSoundPort (port_of self.new) }
        ensures same { IsSamePoller self.old self.new }
    {
        let source = flags.leaves()[leaf].source as usize;
        fetch_in_turn(flags, &mut self.seat, source, from)
    }

    /// Sets the bell of a leaf.
    fn arm(&mut self, flags: &HubFlags, leaf: usize)
        requires of { IsOf flags.now self.old }
        requires own { polls self.old leaf ≡ true }
        ensures state { port_of self.new ≡ armed (port_of self.old) leaf }
        ensures sound { IsSoundPort (port_of self.new) }
        ensures same { IsSamePoller self.old self.new }
    {
        flags.arm(&mut self.seat, leaf);
    }

    /// Looks at the source of a leaf for the last time in a poll: where it shows so many entries and isn't closed, the leaf's task waits.
    fn rest(&mut self, flags: &HubFlags, leaf: usize, at: u32, told: Told) -> Rested<Told>
        requires of { IsOf flags.now self.old }
        requires own { polls self.old leaf ≡ true }
        ensures rest { IsRest (port_of self.old) (port_of self.new) leaf at told result }
        ensures sound { IsSoundPort (port_of self.new) }
        ensures same { IsSamePoller self.old self.new }
    {
        let version = flags.look_last(&mut self.seat, leaf, at);
        if version.count != at || version.closed {
            return Rested::News { version, told };
        }
        Rested::Waiting
    }

    /// Whether a task was told since this was asked last.
    fn collect(&mut self, flags: &HubFlags, task: usize) -> bool
        requires of { IsOf flags.now self.old }
        requires task { IsTaskOf flags.now.layout task self.old.account.number }
        ensures pass { self.new ≡ record self.old { account = after_collect flags.now.layout.leaves self.old.account task result } }
        ensures state { port_of self.new ≡ collected (port_of self.old) task result }
        ensures sound { IsSoundPort (port_of self.new) }
    {
        flags.collect(&mut self.seat, task)
    }
}

/// That a task was told. Only `Hub::collect` makes one, and a poll uses it up that finds nothing.
#[derive(Drop)]
pub struct Told {
    of: Snapshot<HubFlags>,
    task: usize,
}

impl Model for Told {
    ghost use Rattle.sig_hub.specs.Polls.{Token};

    ghost Value = { Token };

    ghost view = { λ told. record { hub = told.of.value; task = told.task } };
}

impl Hub {
    /// The token of a task that the pass polls, if it was told since this was asked last, or wasn't asked yet.
    pub fn collect(&self, pass: &mut PollPass, task: usize) -> Option<Told>
        requires hub { IsOf self.now.machine pass.old }
        requires task { IsTaskOf self.now.machine.layout task pass.old.account.number }
        ensures told { IfSome result (λ told. told ≡ record { hub = self.now.machine; task = task }) }
        ensures pass { pass.new ≡ record pass.old { account = after_collect self.now.machine.layout.leaves pass.old.account task (is_some result) } }
        ensures state { port_of pass.new ≡ collected (port_of pass.old) task (is_some result) }
        ensures sound { IsSoundPort (port_of pass.new) }
    {
        if pass.station.collect(&self.flags, task) {
            return Some(Told {
                of: Snapshot::of(&self.flags),
                task,
            });
        }
        None
    }
}

/// A poller's pass with its hub: the sources of the pass's leaves, as views poll them while other threads edit.
#[derive(Drop)]
pub struct Polling<'a> {
    pub hub: &'a Hub,
    pub pass: &'a mut PollPass,
    /// The pass is one of the hub's.
    ghost of: { IsOf hub.now.machine pass.now },
}

impl Port for Polling<'_> {
    ghost use Rattle.std.specs.Prelude.{◌≡◌, refl};
    ghost use Rattle.std.proofs.Common.{◌∙◌};
    ghost use Rattle.sig_hub.specs.Polls.{port_of, IsSamePoller};

    type Told = Told;

    ghost state = { λ polling. port_of polling.pass.now };

    ghost is_same = { λ polling next. (next.hub.now ≡ polling.hub.now) × (next.pass.ghost_name ≡ polling.pass.ghost_name) × IsSamePoller polling.pass.now next.pass.now };

    ghost is_told = { λ polling told task. told ≡ record { hub = polling.pass.now.hub; task = task } };

    fn look(&mut self, leaf: usize) -> Version {
        let (hub, pass) = (self.hub, &mut *self.pass);
        pass.station.look(&hub.flags, leaf)
    }

    fn fetch(&mut self, leaf: usize, from: Option<u32>) -> Result<Fetched, FetchError> {
        let (hub, pass) = (self.hub, &mut *self.pass);
        pass.station.fetch(&hub.flags, leaf, from)
    }

    fn arm(&mut self, leaf: usize) {
        let (hub, pass) = (self.hub, &mut *self.pass);
        pass.station.arm(&hub.flags, leaf);
    }

    fn rest(&mut self, leaf: usize, at: u32, told: Told) -> Rested<Told> {
        let (hub, pass) = (self.hub, &mut *self.pass);
        pass.station.rest(&hub.flags, leaf, at, told)
    }

    ghost same_now = { λ polling. (refl, refl, record { hub = refl; number = refl; told = λ told. told }) };

    ghost same_later = { λ polling next last first second. (second.0 ∙ first.0, second.1 ∙ first.1, record { hub = second.2.hub ∙ first.2.hub; number = second.2.number ∙ first.2.number; told = λ told. second.2.told (first.2.told told) }) };

    ghost told_later = { λ polling next told task same is. Prim.search Rattle.std.proofs.Common.rules };
}
