ghost use Rattle.std.specs.Prelude.{◌≡◌, ◌<◌, ◌^◌, length, map};
ghost use Rattle.sig_expr.specs.Leaves.{map_leaves, sig_leaves, vec_leaves, sigs_leaves, vecs_leaves};
ghost use Rattle.sig_expr.specs.Shapes.{map_tree, sig_tree, vec_tree, sig_trees, vec_trees};

use crate::expressions::{MapExpr, SigExpr, VecExpr};

/// How many leaves a map has: its source alone.
#[tactic(auto, using(crate::proofs::Numbered::length_map_leaves))]
pub fn map_leaves(m: &MapExpr) -> usize
    ensures { result ≡ length (map_leaves (map_tree m.now)) }
{
    let _ = m;
    1
}

/// How many leaves a signal has: one for each place that names a source, its chooser's and its bank's among them.
#[cycle(count)]
pub fn signal_leaves(e: &SigExpr) -> usize
    requires { length (sig_leaves (sig_tree e.now)) < 2 ^ 64 }
    ensures { result ≡ length (sig_leaves (sig_tree e.now)) }
{
    match e {
        SigExpr::Cell(_) => 1,
        SigExpr::Map(_, e) => signal_leaves(e.get()),
        SigExpr::Dedupe(e) => signal_leaves(e.get()),
        SigExpr::Switch(e, bank) => signal_leaves(e.get()) + signal_bank_leaves(bank.as_slice()),
        SigExpr::Len(e) => list_leaves(e.get()),
        SigExpr::Sum(e) => list_leaves(e.get()),
        SigExpr::Key(_, _, m) => map_leaves(m.get()),
    }
}

/// How many leaves a list has: one for each place that names a source, its chooser's and its bank's among them.
#[cycle(count)]
pub fn list_leaves(e: &VecExpr) -> usize
    requires { length (vec_leaves (vec_tree e.now)) < 2 ^ 64 }
    ensures { result ≡ length (vec_leaves (vec_tree e.now)) }
{
    match e {
        VecExpr::Vector(_) => 1,
        VecExpr::Map(_, e) => list_leaves(e.get()),
        VecExpr::Filter(_, e) => list_leaves(e.get()),
        VecExpr::FilterBy(e, bank) => list_leaves(e.get()) + signal_bank_leaves(bank.as_slice()),
        VecExpr::MapBy(e, bank) => list_leaves(e.get()) + signal_bank_leaves(bank.as_slice()),
        VecExpr::Sorted(_, e) => list_leaves(e.get()),
        VecExpr::Concat(a, b) => list_leaves(a.get()) + list_leaves(b.get()),
        VecExpr::Flatten(e, bank) => list_leaves(e.get()) + list_bank_leaves(bank.as_slice()),
        VecExpr::Pick(e, bank) => signal_leaves(e.get()) + list_bank_leaves(bank.as_slice()),
        VecExpr::Keys(m) => map_leaves(m.get()),
        VecExpr::Values(m) => map_leaves(m.get()),
    }
}

/// How many leaves the signals of a bank have.
#[cycle(count)]
pub fn signal_bank_leaves(bank: &[SigExpr]) -> usize
    requires { length (sigs_leaves (sig_trees (map sig_tree bank.now))) < 2 ^ 64 }
    ensures { result ≡ length (sigs_leaves (sig_trees (map sig_tree bank.now))) }
{
    let mut count = 0;
    'bank: for e in bank {
        count += signal_leaves(e);
    }
    count
}

/// How many leaves the lists of a bank have.
#[cycle(count)]
pub fn list_bank_leaves(bank: &[VecExpr]) -> usize
    requires { length (vecs_leaves (vec_trees (map vec_tree bank.now))) < 2 ^ 64 }
    ensures { result ≡ length (vecs_leaves (vec_trees (map vec_tree bank.now))) }
{
    let mut count = 0;
    'bank: for e in bank {
        count += list_leaves(e);
    }
    count
}
