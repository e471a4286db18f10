ghost use Rattle.std.specs.Prelude.{◌≡◌, ◌≤◌, pos, length, unwrap_or, IfOk};
ghost use Rattle.sig_diff.specs.Choosing.{signal_for};
ghost use Rattle.sig_diff.specs.Entries.{value_at};
ghost use Rattle.sig_diff.specs.Numbers.{clamped, total};
ghost use Rattle.sig_expr.specs.Functions.{image};
ghost use Rattle.sig_nodes.specs.Nodes.{count_of, image_of, list_ops, map_ops, signal_ops, signals_ops, sum_of, switch_of, value_at_key, without_repeats};

use crate::nodes::{ListNode, MapNode, SignalBank, SignalNode};
use sig_bank::Switch;
use sig_diff::{Entries, Items, Mapper, NoMemory};
use sig_expr::Fun;
use sig_maps::KeyOf;
use sig_ops::{Dedupe, LenOp, SumOp};
use std::alloc::Global;

/// The image of a signal.
pub fn signal_mapped(
    alloc: Global,
    fun: Fun,
    of: SignalNode,
    value: i64,
) -> Result<(SignalNode, i64), NoMemory>
    ensures ops { IfOk result (λ made. signal_ops made.0 ≡ image_of fun (signal_ops of)) }
    ensures value { IfOk result (λ made. made.1 ≡ image fun value) }
{
    Ok((SignalNode::Map(fun, Box::new(alloc, of)?), fun.call(value)))
}

/// A signal without repeated values.
pub fn signal_deduped(
    alloc: Global,
    of: SignalNode,
    value: i64,
) -> Result<(SignalNode, i64), NoMemory>
    ensures ops { IfOk result (λ made. signal_ops made.0 ≡ without_repeats value (signal_ops of)) }
    ensures value { IfOk result (λ made. made.1 ≡ value) }
{
    let mut signal = Dedupe::new();
    let value = signal.start(value);
    Ok((SignalNode::Dedupe(signal, Box::new(alloc, of)?), value))
}

/// The length of a list.
pub fn signal_len(
    alloc: Global,
    of: ListNode,
    items: Items<i64>,
) -> Result<(SignalNode, i64), NoMemory>
    requires short { length items ≤ 65536 }
    ensures ops { IfOk result (λ made. signal_ops made.0 ≡ count_of (length items) (list_ops of)) }
    ensures value { IfOk result (λ made. made.1 ≡ pos (length items)) }
{
    let mut op = LenOp::new();
    let value = op.start(&items);
    Ok((SignalNode::Len(op, Box::new(alloc, of)?), value))
}

/// The total of a list.
pub fn signal_sum(
    alloc: Global,
    of: ListNode,
    items: Items<i64>,
) -> Result<(SignalNode, i64), NoMemory>
    requires short { length items ≤ 65536 }
    ensures ops { IfOk result (λ made. signal_ops made.0 ≡ sum_of items (list_ops of)) }
    ensures value { IfOk result (λ made. made.1 ≡ clamped (total items)) }
{
    let mut op = SumOp::new(alloc);
    let value = op.start(&items)?;
    Ok((SignalNode::Sum(op, Box::new(alloc, of)?), value))
}

/// The signal of a bank that a signal chooses.
pub fn signal_switched(
    alloc: Global,
    of: SignalNode,
    chooser: i64,
    bank: SignalBank,
    values: Items<i64>,
) -> Result<(SignalNode, i64), NoMemory>
    ensures ops { IfOk result (λ made. signal_ops made.0 ≡ switch_of (record { chooser = chooser; parts = values }) (signal_ops of) (signals_ops bank)) }
    ensures value { IfOk result (λ made. made.1 ≡ signal_for values chooser) }
{
    let mut op = Switch::new(alloc);
    let value = op.start(chooser, &values)?;
    let of = Box::new(alloc, of)?;
    Ok((SignalNode::Switch(op, of, Box::new(alloc, bank)?), value))
}

/// The value at a key of a map.
pub fn signal_key(key: i64, default: i64, of: MapNode, entries: &Entries<i64>) -> (SignalNode, i64)
    ensures ops { signal_ops result.0 ≡ value_at_key (record { key = key; default = default; value = value_at key entries.now }) (map_ops of) }
    ensures value { result.1 ≡ unwrap_or (value_at key entries.now) default }
{
    let mut op = KeyOf::new(key, default);
    let value = op.start(entries);
    (SignalNode::Key(op, of), value)
}
