ghost use Rattle.std.specs.Prelude.{◌≡◌, ◌++◌, map, IfOk, OnOk};
ghost use Rattle.sig_expr.specs.Leaves.{leaves, map_leaves, sig_leaves, sigs_leaves, vec_leaves, vecs_leaves};
ghost use Rattle.sig_expr.specs.Shapes.{map_tree, sig_tree, sig_trees, vec_tree, vec_trees, view_tree};

use crate::expressions::{MapExpr, SigExpr, VecExpr, View};
use sig_diff::{Items, LeafList, NoMemory};
use std::alloc::Global;

/// The source number of each leaf, from left to right.
pub fn leaves(alloc: Global, view: &View) -> Result<LeafList, NoMemory>
    ensures { IfOk result (λ list. list ≡ leaves (view_tree view.now)) }
{
    let mut all = Items::new(alloc);
    match view {
        View::Signal(signal) => push_signal(&mut all, signal)?,
        View::Vector(list) | View::Enumerate(list) => push_list(&mut all, list)?,
        View::Map(map) | View::Entries(map) => push_map(&mut all, map)?,
    }
    Ok(all)
}

impl SigExpr {
    /// The source number of each leaf, from left to right.
    pub fn leaves(&self, alloc: Global) -> Result<LeafList, NoMemory>
        ensures { IfOk result (λ list. list ≡ sig_leaves (sig_tree self.now)) }
    {
        let mut all = Items::new(alloc);
        push_signal(&mut all, self)?;
        Ok(all)
    }
}

#[cycle(leaves)]
fn push_signal(all: &mut LeafList, signal: &SigExpr) -> Result<(), NoMemory>
    ensures { OnOk result (all.new ≡ all.old ++ sig_leaves (sig_tree signal.now)) }
{
    match signal {
        SigExpr::Cell(source) => all.push(*source),
        SigExpr::Map(_, of) | SigExpr::Dedupe(of) => push_signal(all, of.get()),
        SigExpr::Switch(of, bank) => {
            push_signal(all, of.get())?;
            push_signals(all, bank.as_slice())
        }
        SigExpr::Len(of) | SigExpr::Sum(of) => push_list(all, of.get()),
        SigExpr::Key(_, _, of) => push_map(all, of.get()),
    }
}

#[cycle(leaves)]
fn push_list(all: &mut LeafList, list: &VecExpr) -> Result<(), NoMemory>
    ensures { OnOk result (all.new ≡ all.old ++ vec_leaves (vec_tree list.now)) }
{
    match list {
        VecExpr::Vector(source) => all.push(*source),
        VecExpr::Map(_, of) | VecExpr::Filter(_, of) | VecExpr::Sorted(_, of) => {
            push_list(all, of.get())
        }
        VecExpr::FilterBy(of, bank) | VecExpr::MapBy(of, bank) => {
            push_list(all, of.get())?;
            push_signals(all, bank.as_slice())
        }
        VecExpr::Concat(first, second) => {
            push_list(all, first.get())?;
            push_list(all, second.get())
        }
        VecExpr::Flatten(of, bank) => {
            push_list(all, of.get())?;
            push_lists(all, bank.as_slice())
        }
        VecExpr::Pick(of, bank) => {
            push_signal(all, of.get())?;
            push_lists(all, bank.as_slice())
        }
        VecExpr::Keys(of) | VecExpr::Values(of) => push_map(all, of.get()),
    }
}

#[cycle(leaves)]
fn push_signals(all: &mut LeafList, bank: &[SigExpr]) -> Result<(), NoMemory>
    ensures { OnOk result (all.new ≡ all.old ++ sigs_leaves (sig_trees (map sig_tree bank.now))) }
{
    'signals: for signal in bank {
        push_signal(all, signal)?;
    }
    Ok(())
}

#[cycle(leaves)]
fn push_lists(all: &mut LeafList, bank: &[VecExpr]) -> Result<(), NoMemory>
    ensures { OnOk result (all.new ≡ all.old ++ vecs_leaves (vec_trees (map vec_tree bank.now))) }
{
    'lists: for list in bank {
        push_list(all, list)?;
    }
    Ok(())
}

#[cycle(map_leaves)]
fn push_map(all: &mut LeafList, map: &MapExpr) -> Result<(), NoMemory>
    ensures { OnOk result (all.new ≡ all.old ++ map_leaves (map_tree map.now)) }
{
    match map {
        MapExpr::Map(source) => all.push(*source),
        MapExpr::MapValue(_, of) => push_map(all, of.get()),
    }
}
