use crate::functions::{Fun, Pred};
use sig_diff::{Boxed, Items};

/// A signal: an expression that shows one number.
#[cycle(tree)]
#[derive(Debug, Drop)]
pub enum SigExpr {
    /// A cell, by its source's number.
    Cell(usize),
    Map(Fun, Boxed<SigExpr>),
    /// A signal that gives only values that differ from the last.
    Dedupe(Boxed<SigExpr>),
    /// The signal of a bank that a chooser's value chooses.
    Switch(Boxed<SigExpr>, SigBank),
    Len(Boxed<VecExpr>),
    /// The exact total of a list, clamped once.
    Sum(Boxed<VecExpr>),
    /// The value at a key, or a default: the key, then the default.
    Key(i64, i64, Boxed<MapExpr>),
}

/// A list of numbers.
#[cycle(tree)]
#[derive(Debug, Drop)]
pub enum VecExpr {
    /// A vector, by its source's number.
    Vector(usize),
    Map(Fun, Boxed<VecExpr>),
    Filter(Pred, Boxed<VecExpr>),
    /// The elements whose signal of a bank isn't 0.
    FilterBy(Boxed<VecExpr>, SigBank),
    /// Each element plus its signal of a bank.
    MapBy(Boxed<VecExpr>, SigBank),
    /// The elements by the function's value, and then by themselves.
    Sorted(Fun, Boxed<VecExpr>),
    Concat(Boxed<VecExpr>, Boxed<VecExpr>),
    /// For each element the whole list of a bank that it chooses.
    Flatten(Boxed<VecExpr>, VecBank),
    /// The list of a bank that a chooser's value chooses.
    Pick(Boxed<SigExpr>, VecBank),
    Keys(Boxed<MapExpr>),
    Values(Boxed<MapExpr>),
}

/// A map from numbers to numbers.
#[derive(Debug, Drop)]
pub enum MapExpr {
    /// A map, by its source's number.
    Map(usize),
    MapValue(Fun, Boxed<MapExpr>),
}

/// Signals to choose from: 1 to 16 in a script. A number chooses by its remainder.
pub type SigBank = Items<SigExpr>;

/// Lists to choose from: 1 to 16 in a script. A number chooses by its remainder.
pub type VecBank = Items<VecExpr>;

/// What a view shows.
#[derive(Debug, Drop)]
pub enum View {
    Signal(SigExpr),
    Vector(VecExpr),
    Map(MapExpr),
    /// The map's entries as a list of pairs, by rising keys.
    Entries(MapExpr),
    /// The list with a tag at each element.
    Enumerate(VecExpr),
}
