ghost use Rattle.std.specs.Prelude.{◌≡◌, ◌≢◌, ◌+◌, ◌∷◌, ◌++◌, [], None, IfOk, OnErr, OnOk};
ghost use Rattle.sig_nodes.specs.Banks.{lists_given, values_given};
ghost use Rattle.sig_nodes.specs.Nodes.{has_no_list, has_no_signal, list_count, lists_ops, signal_count, signals_ops};
ghost use Rattle.sig_nodes.specs.Steps.{ListAtGone, ListsGone, ListsMayGo, SignalAtGone, SignalsGone, SignalsMayGo};
ghost use Rattle.sig_walk.specs.Walking.{HasGone, HasNews};

use crate::nodes::{ListBank, SignalBank};
use sig_diff::{Diffs, NoMemory};
use sig_hist::Port;
use sig_walk::Walk;
use std::alloc::Global;
use std::ops::Range;

/// The value that a signal of a bank gave.
#[derive(Clone, Copy, Debug)]
pub struct Given {
    pub place: usize,
    pub value: i64,
}

/// The differences that a list of a bank gave.
#[derive(Debug, Drop)]
pub struct GivenList {
    pub place: usize,
    pub diffs: Diffs<i64>,
}

impl SignalBank {
    /// Takes the leaves of all signals along, from left to right, and adds the values that they give for that. These are
    /// the signals' places.
    #[cycle(walk)]
    pub fn step<P: Port>(
        &mut self,
        places: Range<usize>,
        alloc: Global,
        port: &mut P,
        walk: &mut Walk,
        values: &mut Vec<Given>,
    ) -> Result<(), NoMemory>
        requires may_go { SignalsMayGo (P.state port.old) walk.old (signals_ops self.old) }
        requires places { places.start + signal_count (signals_ops self.old) ≡ places.end }
        ensures same { P.is_same port.old port.new }
        ensures gone { HasGone (P.state port.old) (P.state port.new) walk.old walk.new }
        ensures taken { OnOk result (SignalsGone (P.state port.old) (P.state port.new) walk.old walk.new places.start (signals_ops self.old) (signals_ops self.new) values.old.items values.new.items) }
        ensures news { OnErr result (HasNews (P.state port.new) walk.old) }
    {
        match self {
            SignalBank::Empty => Ok(()),
            SignalBank::Signal(signal, others) => {
                let value = signal.step(alloc, port, walk)?;
                add_value(values, places.start, value)?;
                others.step(places.start + 1..places.end, alloc, port, walk, values)
            }
        }
    }

    /// Takes the leaves of the signal at a place along, and gives what it gives for that: nothing where there is none.
    #[cycle(walk)]
    pub fn step_at<P: Port>(
        &mut self,
        place: usize,
        alloc: Global,
        port: &mut P,
        walk: &mut Walk,
    ) -> Result<Option<i64>, NoMemory>
        requires may_go { SignalsMayGo (P.state port.old) walk.old (signals_ops self.old) }
        ensures same { P.is_same port.old port.new }
        ensures gone { HasGone (P.state port.old) (P.state port.new) walk.old walk.new }
        ensures taken { IfOk result (SignalAtGone (P.state port.old) (P.state port.new) walk.old walk.new place (signals_ops self.old) (signals_ops self.new)) }
        ensures news { OnErr result (HasNews (P.state port.new) walk.old) }
    {
        match self {
            SignalBank::Empty => Ok(None),
            SignalBank::Signal(signal, others) => {
                if place == 0 {
                    signal.step(alloc, port, walk)
                } else {
                    others.step_at(place - 1, alloc, port, walk)
                }
            }
        }
    }

    pub fn is_empty(&self) -> bool
        ensures { result ≡ has_no_signal (signals_ops self.now) }
    {
        matches!(self, SignalBank::Empty)
    }
}

impl ListBank {
    /// Takes the leaves of all lists along, from left to right, and adds the differences that they give for that. These
    /// are the lists' places.
    #[cycle(walk)]
    pub fn step<P: Port>(
        &mut self,
        places: Range<usize>,
        alloc: Global,
        port: &mut P,
        walk: &mut Walk,
        lists: &mut Vec<GivenList>,
    ) -> Result<(), NoMemory>
        requires may_go { ListsMayGo (P.state port.old) walk.old (lists_ops self.old) }
        requires places { places.start + list_count (lists_ops self.old) ≡ places.end }
        ensures same { P.is_same port.old port.new }
        ensures gone { HasGone (P.state port.old) (P.state port.new) walk.old walk.new }
        ensures taken { OnOk result (ListsGone (P.state port.old) (P.state port.new) walk.old walk.new places.start (lists_ops self.old) (lists_ops self.new) lists.old.items lists.new.items) }
        ensures news { OnErr result (HasNews (P.state port.new) walk.old) }
    {
        match self {
            ListBank::Empty => Ok(()),
            ListBank::List(list, others) => {
                let diffs = list.step(alloc, port, walk)?;
                add_list(lists, places.start, diffs)?;
                others.step(places.start + 1..places.end, alloc, port, walk, lists)
            }
        }
    }

    /// Takes the leaves of the list at a place along, and gives what it gives for that: nothing where there is none.
    #[cycle(walk)]
    pub fn step_at<P: Port>(
        &mut self,
        place: usize,
        alloc: Global,
        port: &mut P,
        walk: &mut Walk,
    ) -> Result<Diffs<i64>, NoMemory>
        requires may_go { ListsMayGo (P.state port.old) walk.old (lists_ops self.old) }
        ensures same { P.is_same port.old port.new }
        ensures gone { HasGone (P.state port.old) (P.state port.new) walk.old walk.new }
        ensures taken { IfOk result (ListAtGone (P.state port.old) (P.state port.new) walk.old walk.new place (lists_ops self.old) (lists_ops self.new)) }
        ensures news { OnErr result (HasNews (P.state port.new) walk.old) }
    {
        match self {
            ListBank::Empty => Ok(Diffs::new(alloc)),
            ListBank::List(list, others) => {
                if place == 0 {
                    list.step(alloc, port, walk)
                } else {
                    others.step_at(place - 1, alloc, port, walk)
                }
            }
        }
    }

    pub fn is_empty(&self) -> bool
        ensures { result ≡ has_no_list (lists_ops self.now) }
    {
        matches!(self, ListBank::Empty)
    }
}

/// Adds the value of the signal at a place, if it gave one.
fn add_value(values: &mut Vec<Given>, place: usize, value: Option<i64>) -> Result<(), NoMemory>
    ensures given { OnOk result (values.new.items ≡ values.old.items ++ values_given place (value ∷ [])) }
    ensures some { OnErr result (value ≢ None) }
{
    if let Some(value) = value {
        values.push(Given { place, value })?;
    }
    Ok(())
}

/// Adds the differences of the list at a place, if it gave some.
fn add_list(lists: &mut Vec<GivenList>, place: usize, diffs: Diffs<i64>) -> Result<(), NoMemory>
    ensures given { OnOk result (lists.new.items ≡ lists.old.items ++ lists_given place (diffs ∷ [])) }
    ensures some { OnErr result (diffs ≢ []) }
{
    if !diffs.is_empty() {
        lists.push(GivenList { place, diffs })?;
    }
    Ok(())
}
