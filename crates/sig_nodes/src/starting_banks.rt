ghost use Rattle.std.specs.Prelude.{◌≡◌, map, IfOk};
ghost use Rattle.sig_nodes.specs.Nodes.{list_ops, lists_ops, one_list, one_signal, signal_ops, signals_ops};
ghost use Rattle.sig_nodes.specs.Starting.{lists_bank, signals_bank};

use crate::nodes::{ListBank, ListNode, SignalBank, SignalNode};
use sig_diff::NoMemory;
use std::alloc::Global;

/// The bank of these signals, from left to right.
pub fn signal_bank(alloc: Global, nodes: Vec<SignalNode>) -> Result<SignalBank, NoMemory>
    ensures { IfOk result (λ bank. signals_ops bank ≡ signals_bank (map signal_ops nodes.items)) }
{
    let mut nodes = nodes;
    let mut bank = SignalBank::Empty;
    'nodes: while let Some(node) = nodes.pop() {
        bank = signal_first(alloc, node, bank)?;
    }
    Ok(bank)
}

/// A bank with one more signal before the others.
fn signal_first(alloc: Global, node: SignalNode, others: SignalBank) -> Result<SignalBank, NoMemory>
    ensures { IfOk result (λ bank. signals_ops bank ≡ one_signal (signal_ops node) (signals_ops others)) }
{
    let node = Box::new(alloc, node)?;
    Ok(SignalBank::Signal(node, Box::new(alloc, others)?))
}

/// The bank of these lists, from left to right.
pub fn list_bank(alloc: Global, nodes: Vec<ListNode>) -> Result<ListBank, NoMemory>
    ensures { IfOk result (λ bank. lists_ops bank ≡ lists_bank (map list_ops nodes.items)) }
{
    let mut nodes = nodes;
    let mut bank = ListBank::Empty;
    'nodes: while let Some(node) = nodes.pop() {
        bank = list_first(alloc, node, bank)?;
    }
    Ok(bank)
}

/// A bank with one more list before the others.
fn list_first(alloc: Global, node: ListNode, others: ListBank) -> Result<ListBank, NoMemory>
    ensures { IfOk result (λ bank. lists_ops bank ≡ one_list (list_ops node) (lists_ops others)) }
{
    let node = Box::new(alloc, node)?;
    Ok(ListBank::List(node, Box::new(alloc, others)?))
}
