use sig_bank::{FilterBy, MapBy, Pick, Switch};
use sig_expr::{Fun, Pred};
use sig_flat::{Concat, Flatten};
use sig_maps::{EntriesOp, KeyOf, KeysOp, MapValue, ValuesOp};
use sig_ops::{Dedupe, EnumerateOp, FilterOp, LenOp, MapOp, SumOp};
use sig_sort::SortedOp;

/// A map's operators.
#[derive(Debug, Drop)]
pub enum MapNode {
    /// A map, by its leaf's number.
    Source(usize),
    Value(MapValue<Fun>, Box<MapNode>),
}

/// A list's operators, each with what it has to keep of the parts below it.
#[cycle(tree)]
#[derive(Debug, Drop)]
pub enum ListNode {
    /// A vector, by its leaf's number.
    Source(usize),
    Map(MapOp<i64, i64, Fun>, Box<ListNode>),
    Filter(FilterOp<i64, Pred>, Box<ListNode>),
    Sorted(SortedOp<Fun>, Box<ListNode>),
    FilterBy(FilterBy, Box<ListNode>, Box<SignalBank>),
    MapBy(MapBy, Box<ListNode>, Box<SignalBank>),
    Concat(Concat, Box<ListNode>, Box<ListNode>),
    Flatten(Flatten, Box<ListNode>, Box<ListBank>),
    Pick(Pick, Box<SignalNode>, Box<ListBank>),
    Keys(KeysOp, MapNode),
    Values(ValuesOp, MapNode),
}

/// A signal's operators.
#[cycle(tree)]
#[derive(Debug, Drop)]
pub enum SignalNode {
    /// A cell, by its leaf's number.
    Cell(usize),
    Map(Fun, Box<SignalNode>),
    Dedupe(Dedupe, Box<SignalNode>),
    Switch(Switch, Box<SignalNode>, Box<SignalBank>),
    Len(LenOp, Box<ListNode>),
    Sum(SumOp, Box<ListNode>),
    Key(KeyOf, MapNode),
}

/// The signals of a bank, from left to right.
#[cycle(tree)]
#[derive(Debug, Drop)]
pub enum SignalBank {
    Empty,
    Signal(Box<SignalNode>, Box<SignalBank>),
}

/// The lists of a bank, from left to right.
#[cycle(tree)]
#[derive(Debug, Drop)]
pub enum ListBank {
    Empty,
    List(Box<ListNode>, Box<ListBank>),
}

/// A view's operators.
#[derive(Debug, Drop)]
pub enum ViewNode {
    Signal(SignalNode),
    Vector(ListNode),
    Map(MapNode),
    Entries(EntriesOp, MapNode),
    Enumerate(EnumerateOp, ListNode),
}
