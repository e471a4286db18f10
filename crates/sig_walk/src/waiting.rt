ghost use Rattle.std.specs.Prelude.{◌≡◌, ◌+◌, ◌<◌, length, Some};
ghost use Rattle.sig_hist.specs.Ports.{IsSoundPort};
ghost use Rattle.sig_walk.specs.Waiting.{CanWait, HasEnded, HasWaited, IsLastOpen, IsWatched, is_open_leaf};
ghost use Rattle.sig_walk.specs.Walking.{CanWalk};

use crate::walk::{Mark, Walk};
use sig_hist::{Port, Rested};

/// The answer to a wait.
#[derive(Debug, Drop)]
pub enum Waited<T> {
    /// The task waits, and its token is spent.
    Rests,
    /// A leaf's source goes on. The token comes back.
    News(T),
}

impl Walk {
    /// Whether the walk showed that the leaf can go on.
    fn is_open(&self, leaf: usize) -> bool
        requires { leaf < length self.now.marks }
        ensures { result ≡ is_open_leaf self.now leaf }
    {
        matches!(self.marks[leaf], Mark::Open)
    }

    /// The last leaf that can go on.
    pub fn last_open(&self) -> Option<usize>
        ensures { IsLastOpen self.now (length self.now.marks) result }
    {
        let mut last = None;
        'leaves: for leaf in 0..self.marks.len() {
            last = self.later_open(leaf, last);
        }
        last
    }

    /// The last open leaf among those up to this one, by the last of those before it.
    fn later_open(&self, leaf: usize, last: Option<usize>) -> Option<usize>
        requires leaf { leaf < length self.now.marks }
        requires last { IsLastOpen self.now leaf last }
        ensures { IsLastOpen self.now (leaf + 1) result }
    {
        if self.is_open(leaf) {
            return Some(leaf);
        }
        last
    }

    /// Ends a poll that found nothing: sets the bell of each leaf that can go on, of which this is the last, and looks
    /// at its source after that. Where no source shows more than its leaf has passed, the task waits.
    #[tactic(auto, using(crate::proofs::Listening::listens_none, crate::proofs::Listening::ended))]
    pub fn wait<P: Port>(&self, port: &mut P, last: usize, told: P::Told) -> Waited<P::Told>
        requires can { CanWait (P.state port.old) self.now }
        requires last { IsLastOpen self.now (length self.now.marks) (Some last) }
        requires told { P.is_told port.old told ((P.state port.old).task self.now.first) }
        ensures same { P.is_same port.old port.new }
        ensures sound { IsSoundPort (P.state port.new) }
        ensures waited { HasWaited (P.state port.old) (P.state port.new) self.now told result }
    {
        'leaves: for leaf in 0..last {
            if !self.stays(port, leaf) {
                return Waited::News(told);
            }
        }
        self.rest(port, last, told)
    }

    /// Whether a leaf stays where it is. Where it can go on its bell is set, and its source looked at after that.
    fn stays<P: Port>(&self, port: &mut P, leaf: usize) -> bool
        requires can { CanWalk (P.state port.old) self.now }
        requires leaf { leaf < length self.now.positions }
        ensures same { P.is_same port.old port.new }
        ensures sound { IsSoundPort (P.state port.new) }
        ensures watched { IsWatched (P.state port.old) (P.state port.new) self.now leaf (is_open_leaf self.now leaf) result }
    {
        if !self.is_open(leaf) {
            return true;
        }
        port.arm(self.first + leaf);
        let version = port.look(self.first + leaf);
        version.count == self.positions[leaf] && !version.closed
    }

    /// Sets the last leaf's bell, and ends the poll by the look after that.
    fn rest<P: Port>(&self, port: &mut P, leaf: usize, told: P::Told) -> Waited<P::Told>
        requires can { CanWalk (P.state port.old) self.now }
        requires leaf { leaf < length self.now.positions }
        requires told { P.is_told port.old told ((P.state port.old).task (self.now.first + leaf)) }
        ensures same { P.is_same port.old port.new }
        ensures sound { IsSoundPort (P.state port.new) }
        ensures rested { HasEnded (P.state port.old) (P.state port.new) self.now leaf told result }
    {
        let number = self.first + leaf;
        port.arm(number);
        match port.rest(number, self.positions[leaf], told) {
            Rested::Waiting => Waited::Rests,
            Rested::News { told, .. } => Waited::News(told),
        }
    }
}
