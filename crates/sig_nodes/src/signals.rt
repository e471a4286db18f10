ghost use Rattle.std.specs.Prelude.{◌≡◌, option_and_then, option_map, unwrap_or, IfOk, OnErr};
ghost use Rattle.sig_expr.specs.Functions.{image};
ghost use Rattle.sig_ops.specs.Signals.{given};
ghost use Rattle.sig_nodes.specs.Nodes.{signal_ops};
ghost use Rattle.sig_nodes.specs.Steps.{SignalGone, SignalMayGo};
ghost use Rattle.sig_walk.specs.Walking.{HasGone, HasNews, number_entered};

use crate::choosing::switched;
use crate::nodes::SignalNode;
use sig_diff::{Mapper, NoMemory};
use sig_expr::Fun;
use sig_hist::{Entering, Port};
use sig_ops::Dedupe;
use sig_walk::Walk;
use std::alloc::Global;

impl SignalNode {
    /// Takes its leaves along, from left to right, and gives the signal's value, where it gives one for that.
    #[cycle(walk)]
    pub fn step<P: Port>(
        &mut self,
        alloc: Global,
        port: &mut P,
        walk: &mut Walk,
    ) -> Result<Option<i64>, NoMemory>
        requires may_go { SignalMayGo (P.state port.old) walk.old (signal_ops self.old) }
        ensures same { P.is_same port.old port.new }
        ensures gone { HasGone (P.state port.old) (P.state port.new) walk.old walk.new }
        ensures taken { IfOk result (SignalGone (P.state port.old) (P.state port.new) walk.old walk.new (signal_ops self.old) (signal_ops self.new)) }
        ensures news { OnErr result (HasNews (P.state port.new) walk.old) }
    {
        match self {
            SignalNode::Cell(leaf) => Ok(number_entered(walk.enter(port, *leaf)?)),
            SignalNode::Map(fun, of) => {
                let value = of.step(alloc, port, walk)?;
                Ok(mapped(fun, value))
            }
            SignalNode::Dedupe(signal, of) => {
                let value = of.step(alloc, port, walk)?;
                Ok(deduped(signal, value))
            }
            SignalNode::Switch(op, of, bank) => {
                let chooser = of.step(alloc, port, walk)?;
                let anew = switched(op, 0, chooser);
                if bank.is_empty() {
                    return Ok(anew);
                }
                let place = op.chosen();
                let value = bank.step_at(place, alloc, port, walk)?;
                Ok(switched(op, place + 1, value).or(anew))
            }
            SignalNode::Len(op, of) => {
                let diffs = of.step(alloc, port, walk)?;
                Ok(op.step(&diffs))
            }
            SignalNode::Sum(op, of) => {
                let diffs = of.step(alloc, port, walk)?;
                op.step(&diffs)
            }
            SignalNode::Key(op, of) => {
                let diffs = of.step(alloc, port, walk)?;
                Ok(op.step(&diffs))
            }
        }
    }
}

/// The image of a value.
fn mapped(fun: &Fun, value: Option<i64>) -> Option<i64>
    ensures { result ≡ option_map (image fun.now) value }
{
    value.map(|value| fun.call(value))
}

/// The value, where it isn't the last one.
fn deduped(signal: &mut Dedupe, value: Option<i64>) -> Option<i64>
    ensures value { result ≡ option_and_then (given signal.old) value }
    ensures state { signal.new ≡ unwrap_or value signal.old }
{
    match value {
        Some(value) => signal.step(value),
        None => None,
    }
}

/// The number of a cell among what enters.
fn number_entered(entering: Entering) -> Option<i64>
    ensures { result ≡ number_entered entering }
{
    match entering {
        Entering::Value(value) => Some(value),
        _ => None,
    }
}
