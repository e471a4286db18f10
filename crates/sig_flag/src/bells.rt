//! The steps by which tasks come to be told that a source has an entry more.
ghost use Rattle.std.specs.Prelude.{◌≡◌, ◌<◌, length, true};
ghost use Rattle.sig_flag.specs.Accounts.{known, after_last_look, after_arm, after_ring, after_tell, after_collect};
ghost use Rattle.sig_flag.specs.Layouts.{leaf_at, bell_of, ready_of};
ghost use Rattle.sig_flag.specs.Machines.{account, Sits, IsSameSeat, Has, IsShown, IsPolledBy, IsTaskOf};
ghost use Rattle.sig_hist.specs.Sources.{is_among};

use crate::flags::{FlagSeat, Flags};
use crate::plays::{About, Arm, Collect, LastLook, Ring, Tell};
use crate::words::version_in;
use sig_hist::{Kept, Version};
use std::marker::Brand;

impl<V: Kept> Flags<V> {
    /// Looks at the source of a leaf of which so many entries are known. Where it shows these and isn't closed, the leaf's task comes to rest:
    /// its checked leaves wait, and one of its tokens is spent.
    pub fn look_last(&self, seat: &mut FlagSeat<V>, leaf: usize, at: u32) -> Version
        requires seat { Sits self.now seat.old }
        requires leaf { leaf < length self.now.layout.leaves }
        ensures seat { IsSameSeat seat.old seat.new }
        ensures account { Has seat.new (after_last_look self.now.layout.leaves (account seat.old) leaf at result) seat.old.me.1 }
        ensures shown { IsShown (known (account seat.old) (leaf_at self.now.layout.leaves leaf).source) result }
    {
        self.look_knowing::<Brand>(seat, leaf, at)
    }

    /// Sets the bell of a leaf whose task the seat polls.
    pub fn arm(&self, seat: &mut FlagSeat<V>, leaf: usize)
        requires seat { Sits self.now seat.old }
        requires polled { IsPolledBy self.now.layout leaf (account seat.old).number }
        ensures seat { IsSameSeat seat.old seat.new }
        ensures account { Has seat.new (after_arm (account seat.old) leaf) seat.old.me.1 }
    {
        self.arm_one::<Brand>(seat, leaf);
    }

    /// Rings the bell of a leaf, as a seat has to that gave a source back with an entry more: whether it was set. If so, the seat has to tell
    /// the leaf's task.
    pub fn ring(&self, seat: &mut FlagSeat<V>, leaf: usize) -> bool
        requires seat { Sits self.now seat.old }
        requires leaf { leaf < length self.now.layout.leaves }
        requires owed { is_among leaf (account seat.old).rings ≡ true }
        ensures seat { IsSameSeat seat.old seat.new }
        ensures account { Has seat.new (after_ring self.now.layout.leaves (account seat.old) leaf result) seat.old.me.1 }
    {
        self.ring_one::<Brand>(seat, leaf)
    }

    /// Tells a task, as a seat has to that found the bell of one of its leaves set: whether it was told already.
    pub fn tell(&self, seat: &mut FlagSeat<V>, task: usize) -> bool
        requires seat { Sits self.now seat.old }
        requires task { task < length self.now.layout.pollers }
        requires owed { is_among task (account seat.old).tells ≡ true }
        ensures seat { IsSameSeat seat.old seat.new }
        ensures account { Has seat.new (after_tell (account seat.old) task result) seat.old.me.1 }
    {
        self.tell_one::<Brand>(seat, task)
    }

    /// Whether a task that the seat polls was told since this was asked last. If so, the seat has one token of it more, and none of its leaves
    /// but those that wait has a set bell to count on.
    pub fn collect(&self, seat: &mut FlagSeat<V>, task: usize) -> bool
        requires seat { Sits self.now seat.old }
        requires polled { IsTaskOf self.now.layout task (account seat.old).number }
        ensures seat { IsSameSeat seat.old seat.new }
        ensures account { Has seat.new (after_collect self.now.layout.leaves (account seat.old) task result) seat.old.me.1 }
    {
        self.collect_one::<Brand>(seat, task)
    }

    fn look_knowing<A: About>(&self, seat: &mut FlagSeat<V>, leaf: usize, at: u32) -> Version
        requires seat { Sits self.now seat.old }
        requires leaf { leaf < length self.now.layout.leaves }
        requires known { (self.now.layout.leaves ≡ A.leaves) × (leaf ≡ A.number) × (at ≡ A.at) }
        ensures seat { IsSameSeat seat.old seat.new }
        ensures account { Has seat.new (after_last_look self.now.layout.leaves (account seat.old) leaf at result) seat.old.me.1 }
        ensures shown { IsShown (known (account seat.old) (leaf_at self.now.layout.leaves leaf).source) result }
    {
        let source = self.leaves.as_slice()[leaf].source as usize;
        version_in(self.table.shared.load::<LastLook<A>>(seat, source))
    }

    fn arm_one<A: About>(&self, seat: &mut FlagSeat<V>, leaf: usize)
        requires seat { Sits self.now seat.old }
        requires polled { IsPolledBy self.now.layout leaf (account seat.old).number }
        requires number { leaf ≡ A.number }
        ensures seat { IsSameSeat seat.old seat.new }
        ensures account { Has seat.new (after_arm (account seat.old) leaf) seat.old.me.1 }
    {
        let bell = self.bell_word(leaf);
        self.table.shared.store::<Arm<A>>(seat, bell, 1);
    }

    fn ring_one<A: About>(&self, seat: &mut FlagSeat<V>, leaf: usize) -> bool
        requires seat { Sits self.now seat.old }
        requires leaf { leaf < length self.now.layout.leaves }
        requires leaves { self.now.layout.leaves ≡ A.leaves }
        requires number { leaf ≡ A.number }
        ensures seat { IsSameSeat seat.old seat.new }
        ensures account { Has seat.new (after_ring self.now.layout.leaves (account seat.old) leaf result) seat.old.me.1 }
    {
        let bell = self.bell_word(leaf);
        self.table.shared.swap::<Ring<A>>(seat, bell, 0) == 1
    }

    fn tell_one<A: About>(&self, seat: &mut FlagSeat<V>, task: usize) -> bool
        requires seat { Sits self.now seat.old }
        requires task { task < length self.now.layout.pollers }
        requires number { task ≡ A.number }
        ensures seat { IsSameSeat seat.old seat.new }
        ensures account { Has seat.new (after_tell (account seat.old) task result) seat.old.me.1 }
    {
        let ready = self.ready_word(task);
        self.table.shared.swap::<Tell<A>>(seat, ready, 1) == 1
    }

    fn collect_one<A: About>(&self, seat: &mut FlagSeat<V>, task: usize) -> bool
        requires seat { Sits self.now seat.old }
        requires polled { IsTaskOf self.now.layout task (account seat.old).number }
        requires leaves { self.now.layout.leaves ≡ A.leaves }
        requires number { task ≡ A.number }
        ensures seat { IsSameSeat seat.old seat.new }
        ensures account { Has seat.new (after_collect self.now.layout.leaves (account seat.old) task result) seat.old.me.1 }
    {
        let ready = self.ready_word(task);
        self.table.shared.swap::<Collect<A>>(seat, ready, 0) == 1
    }

    fn bell_word(&self, leaf: usize) -> usize
        requires { leaf < length self.now.layout.leaves }
        ensures { result ≡ bell_of self.now.layout leaf }
    {
        self.table.slot_count() + leaf
    }

    fn ready_word(&self, task: usize) -> usize
        requires { task < length self.now.layout.pollers }
        ensures { result ≡ ready_of self.now.layout task }
    {
        self.table.slot_count() + self.leaves.len() + task
    }
}
