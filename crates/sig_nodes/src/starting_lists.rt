ghost use Rattle.std.specs.Prelude.{◌≡◌, ◌≤◌, ◌+◌, ◌++◌, length, map, filter, IfOk};
ghost use Rattle.std.specs.List.{All, flat_map};
ghost use Rattle.sig_diff.specs.Choosing.{is_let_in, list_for, raised_by};
ghost use Rattle.sig_diff.specs.Entries.{keys_of, values_of};
ghost use Rattle.sig_diff.specs.Sorting.{by_key, in_order};
ghost use Rattle.sig_expr.specs.Functions.{image, passes};
ghost use Rattle.sig_sort.specs.Sorting.{sorted_of};
ghost use Rattle.sig_nodes.specs.Nodes.{images, kept, keys_by, let_in, list_ops, lists_ops, map_ops, ordered, pick_of, raised, signal_ops, signals_ops, values_by, blocks_of, halves_of};

use crate::nodes::{ListBank, ListNode, MapNode, SignalBank, SignalNode};
use sig_bank::{FilterBy, MapBy, Pick};
use sig_diff::{Entries, Items, Lists, NoMemory};
use sig_expr::{Fun, Pred};
use sig_flat::{Concat, Flatten};
use sig_maps::{KeysOp, ValuesOp};
use sig_ops::{FilterOp, MapOp, VecOp};
use sig_sort::SortedOp;
use std::alloc::Global;

/// The images of a list's items.
pub fn list_mapped(
    alloc: Global,
    fun: Fun,
    of: (ListNode, Items<i64>),
) -> Result<(ListNode, Items<i64>), NoMemory>
    requires short { length of.1 ≤ 65536 }
    ensures ops { IfOk result (λ made. list_ops made.0 ≡ images fun (list_ops of.0)) }
    ensures items { IfOk result (λ made. made.1 ≡ map (image fun) of.1) }
    ensures short { IfOk result (λ made. length made.1 ≤ 65536) }
{
    let (of, items) = of;
    let mut op = MapOp::new(alloc, fun);
    let images = op.start(&items)?;
    Ok((ListNode::Map(op, Box::new(alloc, of)?), images))
}

/// The items of a list that pass.
#[tactic(auto, using(sig_expr::proofs::Bounded::length_filter_within))]
pub fn list_filtered(
    alloc: Global,
    pred: Pred,
    of: (ListNode, Items<i64>),
) -> Result<(ListNode, Items<i64>), NoMemory>
    requires short { length of.1 ≤ 65536 }
    ensures ops { IfOk result (λ made. list_ops made.0 ≡ kept (record { tester = pred; items = of.1 }) (list_ops of.0)) }
    ensures items { IfOk result (λ made. made.1 ≡ filter (passes pred) of.1) }
    ensures short { IfOk result (λ made. length made.1 ≤ 65536) }
{
    let (of, items) = of;
    let mut op = FilterOp::new(alloc, pred);
    let kept = op.start(&items)?;
    Ok((ListNode::Filter(op, Box::new(alloc, of)?), kept))
}

/// The items of a list in order.
#[tactic(auto, using(sig_diff::proofs::Sorting::length_in_order))]
pub fn list_sorted(
    alloc: Global,
    fun: Fun,
    of: (ListNode, Items<i64>),
) -> Result<(ListNode, Items<i64>), NoMemory>
    requires short { length of.1 ≤ 65536 }
    ensures ops { IfOk result (λ made. list_ops made.0 ≡ ordered (sorted_of fun of.1) (list_ops of.0)) }
    ensures items { IfOk result (λ made. made.1 ≡ in_order (by_key (image fun)) of.1) }
    ensures short { IfOk result (λ made. length made.1 ≤ 65536) }
{
    let (of, items) = of;
    let mut op = SortedOp::new(alloc, fun);
    let sorted = op.start(&items)?;
    Ok((ListNode::Sorted(op, Box::new(alloc, of)?), sorted))
}

/// The items of a list whose signal isn't 0.
#[tactic(auto, using(sig_expr::proofs::Bounded::length_filter_within))]
pub fn list_filtered_by(
    alloc: Global,
    of: (ListNode, Items<i64>),
    bank: (SignalBank, Items<i64>),
) -> Result<(ListNode, Items<i64>), NoMemory>
    requires short { length of.1 ≤ 65536 }
    ensures ops { IfOk result (λ made. list_ops made.0 ≡ let_in (record { items = of.1; signals = bank.1 }) (list_ops of.0) (signals_ops bank.0)) }
    ensures items { IfOk result (λ made. made.1 ≡ filter (is_let_in bank.1) of.1) }
    ensures short { IfOk result (λ made. length made.1 ≤ 65536) }
{
    let (bank, values) = bank;
    let (of, items) = of;
    let mut op = FilterBy::new(alloc);
    let kept = op.start(&items, &values)?;
    let of = Box::new(alloc, of)?;
    Ok((ListNode::FilterBy(op, of, Box::new(alloc, bank)?), kept))
}

/// The items of a list, each plus its signal.
pub fn list_mapped_by(
    alloc: Global,
    of: (ListNode, Items<i64>),
    bank: (SignalBank, Items<i64>),
) -> Result<(ListNode, Items<i64>), NoMemory>
    requires short { length of.1 ≤ 65536 }
    ensures ops { IfOk result (λ made. list_ops made.0 ≡ raised (record { items = of.1; signals = bank.1 }) (list_ops of.0) (signals_ops bank.0)) }
    ensures items { IfOk result (λ made. made.1 ≡ map (raised_by bank.1) of.1) }
    ensures short { IfOk result (λ made. length made.1 ≤ 65536) }
{
    let (bank, values) = bank;
    let (of, items) = of;
    let mut op = MapBy::new(alloc);
    let sums = op.start(&items, &values)?;
    let of = Box::new(alloc, of)?;
    Ok((ListNode::MapBy(op, of, Box::new(alloc, bank)?), sums))
}

/// The list of a bank that a signal chooses.
pub fn list_picked(
    alloc: Global,
    of: (SignalNode, i64),
    bank: (ListBank, Lists),
) -> Result<(ListNode, Items<i64>), NoMemory>
    requires short { All (λ items. length items ≤ 65536) bank.1 }
    ensures ops { IfOk result (λ made. list_ops made.0 ≡ pick_of (record { chooser = of.1; parts = bank.1 }) (signal_ops of.0) (lists_ops bank.0)) }
    ensures items { IfOk result (λ made. made.1 ≡ list_for bank.1 of.1) }
    ensures short { IfOk result (λ made. length made.1 ≤ 65536) }
{
    let (bank, lists) = bank;
    let (of, chooser) = of;
    let mut op = Pick::new(alloc);
    let chosen = op.start(chooser, &lists)?;
    let of = Box::new(alloc, of)?;
    Ok((ListNode::Pick(op, of, Box::new(alloc, bank)?), chosen))
}

/// Two lists, one behind the other.
pub fn list_joined(
    alloc: Global,
    left: (ListNode, Items<i64>),
    right: (ListNode, Items<i64>),
) -> Result<(ListNode, Items<i64>), NoMemory>
    requires short { length left.1 + length right.1 ≤ 65536 }
    ensures ops { IfOk result (λ made. list_ops made.0 ≡ halves_of (record { left = length left.1; right = length right.1 }) (list_ops left.0) (list_ops right.0)) }
    ensures items { IfOk result (λ made. made.1 ≡ left.1 ++ right.1) }
    ensures short { IfOk result (λ made. length made.1 ≤ 65536) }
{
    let (right, rights) = right;
    let (left, lefts) = left;
    let mut op = Concat::new(alloc);
    let both = op.start(&lefts, &rights)?;
    let left = Box::new(alloc, left)?;
    Ok((ListNode::Concat(op, left, Box::new(alloc, right)?), both))
}

/// For each element of a list the whole list of a bank that it chooses.
pub fn list_flattened(
    alloc: Global,
    of: (ListNode, Items<i64>),
    bank: (ListBank, Lists),
) -> Result<(ListNode, Items<i64>), NoMemory>
    requires short_outer { length of.1 ≤ 65536 }
    requires short { length (flat_map (list_for bank.1) of.1) ≤ 65536 }
    ensures ops { IfOk result (λ made. list_ops made.0 ≡ blocks_of (record { outer = of.1; parts = bank.1 }) (list_ops of.0) (lists_ops bank.0)) }
    ensures items { IfOk result (λ made. made.1 ≡ flat_map (list_for bank.1) of.1) }
    ensures short { IfOk result (λ made. length made.1 ≤ 65536) }
{
    let (bank, lists) = bank;
    let (of, items) = of;
    let mut op = Flatten::new(alloc);
    let blocks = op.start(&items, &lists)?;
    let of = Box::new(alloc, of)?;
    Ok((ListNode::Flatten(op, of, Box::new(alloc, bank)?), blocks))
}

/// The keys of a map.
pub fn list_keys(
    alloc: Global,
    of: (MapNode, Entries<i64>),
) -> Result<(ListNode, Items<i64>), NoMemory>
    requires short { length of.1 ≤ 65536 }
    ensures ops { IfOk result (λ made. list_ops made.0 ≡ keys_by of.1 (map_ops of.0)) }
    ensures items { IfOk result (λ made. made.1 ≡ keys_of of.1) }
    ensures short { IfOk result (λ made. length made.1 ≤ 65536) }
{
    let (of, entries) = of;
    let mut op = KeysOp::new(alloc);
    let keys = op.start(&entries)?;
    Ok((ListNode::Keys(op, of), keys))
}

/// The values of a map.
pub fn list_values(
    alloc: Global,
    of: (MapNode, Entries<i64>),
) -> Result<(ListNode, Items<i64>), NoMemory>
    requires short { length of.1 ≤ 65536 }
    ensures ops { IfOk result (λ made. list_ops made.0 ≡ values_by of.1 (map_ops of.0)) }
    ensures items { IfOk result (λ made. made.1 ≡ values_of of.1) }
    ensures short { IfOk result (λ made. length made.1 ≤ 65536) }
{
    let (of, entries) = of;
    let mut op = ValuesOp::new(alloc);
    let values = op.start(&entries)?;
    Ok((ListNode::Values(op, of), values))
}
