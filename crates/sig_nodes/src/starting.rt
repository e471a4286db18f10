ghost use Rattle.std.specs.Prelude.{ℕ, ◌≡◌, ◌∷◌, [], ◌≤◌, ◌<◌, ◌+◌, Some, length, map, IfOk};
ghost use Rattle.std.specs.List.{All, flat_map};
ghost use Rattle.sig_diff.specs.Contents.{number_in, list_in, entries_in};
ghost use Rattle.sig_diff.specs.Entries.{values_mapped};
ghost use Rattle.sig_expr.specs.Functions.{image};
ghost use Rattle.sig_expr.specs.Leaves.{leaves, number_map, number_sig, number_sigs, number_vec, number_vecs, numbered, sig_leaves, sigs_leaves, vec_leaves, vecs_leaves};
ghost use Rattle.sig_diff.specs.Choosing.{list_for};
ghost use Rattle.sig_expr.specs.Evaluation.{list_of, lists_of};
ghost use Rattle.sig_expr.specs.Trees.{VecTree, flattened, joined, mapped_values};
ghost use Rattle.sig_expr.specs.Shapes.{map_tree, sig_tree, sig_trees, vec_tree, vec_trees, view_tree};
ghost use Rattle.sig_walk.specs.Fetching.{content_in};
ghost use Rattle.sig_expr.specs.Lengths.{longest, sig_longest, sigs_longest, vec_longest, vecs_longest};
ghost use Rattle.sig_ops.specs.Enumerating.{enumeration_of, tagged_from};
ghost use Rattle.sig_nodes.specs.Nodes.{list_ops, lists_ops, map_ops, pairs_by, signal_ops, signals_ops, tagged, view_ops};
ghost use Rattle.sig_nodes.specs.Starting.{AreListsStarted, AreSignalsStarted, IsListStarted, IsMapStarted, IsSignalStarted, IsViewStarted, leaf_length};

use crate::nodes::{ListBank, ListNode, MapNode, SignalBank, SignalNode, ViewNode};
use crate::starting_banks::{list_bank, signal_bank};
use crate::starting_lists::{
    list_filtered, list_filtered_by, list_flattened, list_joined, list_keys, list_mapped,
    list_mapped_by, list_picked, list_sorted, list_values,
};
use crate::starting_signals::{
    signal_deduped, signal_key, signal_len, signal_mapped, signal_sum, signal_switched,
};
use sig_diff::{Content, Diffs, Entries, Items, Lists, MapDiff, MapDiffs, NoMemory, VecDiff};
use sig_expr::{Fun, MapExpr, SigExpr, VecExpr, View, list_leaves, signal_leaves};
use sig_maps::{EntriesOp, MapValue};
use sig_ops::{EnumerateOp, VecOp};
use sig_rows::Body;
use std::alloc::Global;

// ---- what the leaves hold

/// A cell's number.
fn number_at(contents: &[Option<Content>], leaf: usize) -> i64
    ensures { result ≡ number_in (content_in contents.now leaf) }
{
    match contents.get(leaf) {
        Some(Some(Content::Cell(number))) => *number,
        _ => 0,
    }
}

/// A vector's list.
fn list_at(alloc: Global, contents: &[Option<Content>], leaf: usize) -> Result<Items<i64>, NoMemory>
    ensures { IfOk result (λ items. items ≡ list_in (content_in contents.now leaf)) }
{
    match contents.get(leaf) {
        Some(Some(Content::Vector(items))) => items.copy(),
        _ => Ok(Items::new(alloc)),
    }
}

/// A map's entries.
fn entries_at(
    alloc: Global,
    contents: &[Option<Content>],
    leaf: usize,
) -> Result<Entries<i64>, NoMemory>
    ensures { IfOk result (λ entries. entries ≡ entries_in (content_in contents.now leaf)) }
{
    match contents.get(leaf) {
        Some(Some(Content::Map(entries))) => entries.copy(),
        _ => Ok(Entries::new(alloc)),
    }
}

// ---- maps

/// A map's operators, started on what its leaf holds, and its entries. Its leaf has this number.
fn map_node(
    alloc: Global,
    map: &MapExpr,
    contents: &[Option<Content>],
    leaf: usize,
) -> Result<(MapNode, Entries<i64>), NoMemory>
    requires room { leaf < length contents.now }
    ensures started { IfOk result (λ made. IsMapStarted (content_in contents.now) (number_map (map_tree map.now) leaf) (map_ops made.0) made.1) }
{
    match map {
        MapExpr::Map(_) => Ok((MapNode::Source(leaf), entries_at(alloc, contents, leaf)?)),
        MapExpr::MapValue(fun, of) => {
            let (of, entries) = map_node(alloc, of.get(), contents, leaf)?;
            map_mapped(alloc, *fun, of, entries)
        }
    }
}

/// A map with a function at its values.
fn map_mapped(
    alloc: Global,
    fun: Fun,
    of: MapNode,
    entries: Entries<i64>,
) -> Result<(MapNode, Entries<i64>), NoMemory>
    ensures ops { IfOk result (λ made. map_ops made.0 ≡ mapped_values fun (map_ops of)) }
    ensures entries { IfOk result (λ made. made.1 ≡ values_mapped (image fun) entries) }
{
    let mut op = MapValue::new(alloc, fun);
    let mapped = op.start(&entries)?;
    Ok((MapNode::Value(op, Box::new(alloc, of)?), mapped))
}

// ---- lists

/// A list's operators, started on what its leaves hold, and its items. Its leaves have the numbers from `leaf` on.
#[cycle(start)]
fn list_node(
    alloc: Global,
    list: &VecExpr,
    contents: &[Option<Content>],
    leaf: usize,
) -> Result<(ListNode, Items<i64>), NoMemory>
    requires room { leaf + length (vec_leaves (vec_tree list.now)) ≤ length contents.now }
    requires short { vec_longest (leaf_length (content_in contents.now)) (number_vec (vec_tree list.now) leaf) ≤ 65536 }
    ensures started { IfOk result (λ made. IsListStarted (content_in contents.now) (number_vec (vec_tree list.now) leaf) (list_ops made.0) made.1) }
    ensures short { IfOk result (λ made. length made.1 ≤ 65536) }
{
    match list {
        VecExpr::Vector(_) => Ok((ListNode::Source(leaf), list_at(alloc, contents, leaf)?)),
        VecExpr::Map(fun, of) => {
            let of = list_node(alloc, of.get(), contents, leaf)?;
            list_mapped(alloc, *fun, of)
        }
        VecExpr::Filter(pred, of) => {
            let of = list_node(alloc, of.get(), contents, leaf)?;
            list_filtered(alloc, *pred, of)
        }
        VecExpr::Sorted(fun, of) => {
            let of = list_node(alloc, of.get(), contents, leaf)?;
            list_sorted(alloc, *fun, of)
        }
        VecExpr::FilterBy(of, bank) => {
            let behind = leaf + list_leaves(of.get());
            let of = list_node(alloc, of.get(), contents, leaf)?;
            let bank = signal_bank_nodes(alloc, bank.as_slice(), contents, behind)?;
            list_filtered_by(alloc, of, bank)
        }
        VecExpr::MapBy(of, bank) => {
            let behind = leaf + list_leaves(of.get());
            let of = list_node(alloc, of.get(), contents, leaf)?;
            let bank = signal_bank_nodes(alloc, bank.as_slice(), contents, behind)?;
            list_mapped_by(alloc, of, bank)
        }
        VecExpr::Concat(left, right) => {
            let behind = leaf + list_leaves(left.get());
            let left = list_node(alloc, left.get(), contents, leaf)?;
            list_concat(alloc, left, right.get(), contents, behind)
        }
        VecExpr::Flatten(of, bank) => {
            let behind = leaf + list_leaves(of.get());
            let of = list_node(alloc, of.get(), contents, leaf)?;
            list_flatten(alloc, of, bank.as_slice(), contents, behind)
        }
        VecExpr::Pick(of, bank) => {
            let behind = leaf + signal_leaves(of.get());
            let of = signal_node(alloc, of.get(), contents, leaf)?;
            let bank = list_bank_nodes(alloc, bank.as_slice(), contents, behind)?;
            list_picked(alloc, of, bank)
        }
        VecExpr::Keys(of) => {
            let of = map_node(alloc, of.get(), contents, leaf)?;
            list_keys(alloc, of)
        }
        VecExpr::Values(of) => {
            let of = map_node(alloc, of.get(), contents, leaf)?;
            list_values(alloc, of)
        }
    }
}

/// A list that is started, and behind it another.
#[cycle(start)]
fn list_concat(
    alloc: Global,
    left: (ListNode, Items<i64>),
    right: &VecExpr,
    contents: &[Option<Content>],
    leaf: usize,
) -> Result<(ListNode, Items<i64>), NoMemory>
    requires room { leaf + length (vec_leaves (vec_tree right.now)) ≤ length contents.now }
    requires short { vec_longest (leaf_length (content_in contents.now)) (number_vec (vec_tree right.now) leaf) ≤ 65536 }
    requires short_both { length left.1 + length (list_of (content_in contents.now) (number_vec (vec_tree right.now) leaf)) ≤ 65536 }
    ensures started { (tree : VecTree ℕ) → IsListStarted (content_in contents.now) tree (list_ops left.0) left.1
        → IfOk result (λ made. IsListStarted (content_in contents.now) (joined tree (number_vec (vec_tree right.now) leaf)) (list_ops made.0) made.1) }
    ensures short { IfOk result (λ made. length made.1 ≤ 65536) }
{
    let right = list_node(alloc, right, contents, leaf)?;
    list_joined(alloc, left, right)
}

/// For each element of a list that is started the whole list of a bank that it chooses.
#[cycle(start)]
fn list_flatten(
    alloc: Global,
    of: (ListNode, Items<i64>),
    parts: &[VecExpr],
    contents: &[Option<Content>],
    leaf: usize,
) -> Result<(ListNode, Items<i64>), NoMemory>
    requires room { leaf + length (vecs_leaves (vec_trees (map vec_tree parts.now))) ≤ length contents.now }
    requires short { vecs_longest (leaf_length (content_in contents.now)) (number_vecs (vec_trees (map vec_tree parts.now)) leaf) ≤ 65536 }
    requires short_outer { length of.1 ≤ 65536 }
    requires short_blocks { length (flat_map (list_for (lists_of (content_in contents.now) (number_vecs (vec_trees (map vec_tree parts.now)) leaf))) of.1) ≤ 65536 }
    ensures started { (tree : VecTree ℕ) → IsListStarted (content_in contents.now) tree (list_ops of.0) of.1
        → IfOk result (λ made. IsListStarted (content_in contents.now) (flattened tree (number_vecs (vec_trees (map vec_tree parts.now)) leaf)) (list_ops made.0) made.1) }
    ensures short { IfOk result (λ made. length made.1 ≤ 65536) }
{
    let bank = list_bank_nodes(alloc, parts, contents, leaf)?;
    list_flattened(alloc, of, bank)
}

/// The operators of a bank's lists, started on what their leaves hold, and the lists.
#[cycle(start)]
fn list_bank_nodes(
    alloc: Global,
    bank: &[VecExpr],
    contents: &[Option<Content>],
    leaf: usize,
) -> Result<(ListBank, Lists), NoMemory>
    requires room { leaf + length (vecs_leaves (vec_trees (map vec_tree bank.now))) ≤ length contents.now }
    requires short { vecs_longest (leaf_length (content_in contents.now)) (number_vecs (vec_trees (map vec_tree bank.now)) leaf) ≤ 65536 }
    ensures started { IfOk result (λ made. AreListsStarted (content_in contents.now) (number_vecs (vec_trees (map vec_tree bank.now)) leaf) (lists_ops made.0) made.1) }
    ensures short { IfOk result (λ made. All (λ items. length items ≤ 65536) made.1) }
{
    let mut nodes = Vec::new(alloc);
    let mut lists = Items::new(alloc);
    let mut place = leaf;
    'bank: for list in bank {
        let (node, items) = list_node(alloc, list, contents, place)?;
        nodes.push(node)?;
        lists.push(items)?;
        place += list_leaves(list);
    }
    Ok((list_bank(alloc, nodes)?, lists))
}

// ---- signals

/// A signal's operators, started on what its leaves hold, and its value. Its leaves have the numbers from `leaf` on.
#[cycle(start)]
fn signal_node(
    alloc: Global,
    signal: &SigExpr,
    contents: &[Option<Content>],
    leaf: usize,
) -> Result<(SignalNode, i64), NoMemory>
    requires room { leaf + length (sig_leaves (sig_tree signal.now)) ≤ length contents.now }
    requires short { sig_longest (leaf_length (content_in contents.now)) (number_sig (sig_tree signal.now) leaf) ≤ 65536 }
    ensures { IfOk result (λ made. IsSignalStarted (content_in contents.now) (number_sig (sig_tree signal.now) leaf) (signal_ops made.0) made.1) }
{
    match signal {
        SigExpr::Cell(_) => Ok((SignalNode::Cell(leaf), number_at(contents, leaf))),
        SigExpr::Map(fun, of) => {
            let (of, value) = signal_node(alloc, of.get(), contents, leaf)?;
            signal_mapped(alloc, *fun, of, value)
        }
        SigExpr::Dedupe(of) => {
            let (of, value) = signal_node(alloc, of.get(), contents, leaf)?;
            signal_deduped(alloc, of, value)
        }
        SigExpr::Switch(of, bank) => {
            let behind = leaf + signal_leaves(of.get());
            let (of, chooser) = signal_node(alloc, of.get(), contents, leaf)?;
            let (bank, values) = signal_bank_nodes(alloc, bank.as_slice(), contents, behind)?;
            signal_switched(alloc, of, chooser, bank, values)
        }
        SigExpr::Len(of) => {
            let (of, items) = list_node(alloc, of.get(), contents, leaf)?;
            signal_len(alloc, of, items)
        }
        SigExpr::Sum(of) => {
            let (of, items) = list_node(alloc, of.get(), contents, leaf)?;
            signal_sum(alloc, of, items)
        }
        SigExpr::Key(key, default, of) => {
            let (of, entries) = map_node(alloc, of.get(), contents, leaf)?;
            Ok(signal_key(*key, *default, of, &entries))
        }
    }
}

/// The operators of a bank's signals, started on what their leaves hold, and their values.
#[cycle(start)]
fn signal_bank_nodes(
    alloc: Global,
    bank: &[SigExpr],
    contents: &[Option<Content>],
    leaf: usize,
) -> Result<(SignalBank, Items<i64>), NoMemory>
    requires room { leaf + length (sigs_leaves (sig_trees (map sig_tree bank.now))) ≤ length contents.now }
    requires short { sigs_longest (leaf_length (content_in contents.now)) (number_sigs (sig_trees (map sig_tree bank.now)) leaf) ≤ 65536 }
    ensures { IfOk result (λ made. AreSignalsStarted (content_in contents.now) (number_sigs (sig_trees (map sig_tree bank.now)) leaf) (signals_ops made.0) made.1) }
{
    let mut nodes = Vec::new(alloc);
    let mut values = Items::new(alloc);
    let mut place = leaf;
    'bank: for signal in bank {
        let (node, value) = signal_node(alloc, signal, contents, place)?;
        nodes.push(node)?;
        values.push(value)?;
        place += signal_leaves(signal);
    }
    Ok((signal_bank(alloc, nodes)?, values))
}

// ---- views

/// A view's operators, started on what its leaves hold, and the body of its first row.
pub fn view_node(
    alloc: Global,
    view: &View,
    contents: &[Option<Content>],
) -> Result<(ViewNode, Body), NoMemory>
    requires room { length (leaves (view_tree view.now)) ≤ length contents.now }
    requires short { longest (leaf_length (content_in contents.now)) (numbered (view_tree view.now)) ≤ 65536 }
    ensures { IfOk result (λ made. IsViewStarted (content_in contents.now) (numbered (view_tree view.now)) (view_ops made.0) made.1) }
{
    match view {
        View::Signal(of) => {
            let (node, value) = signal_node(alloc, of, contents, 0)?;
            Ok((ViewNode::Signal(node), Body::Signal(Some(value))))
        }
        View::Vector(of) => {
            let (node, values) = list_node(alloc, of, contents, 0)?;
            Ok((
                ViewNode::Vector(node),
                Body::Vector(all_items(alloc, values)?),
            ))
        }
        View::Map(of) => {
            let (node, entries) = map_node(alloc, of, contents, 0)?;
            Ok((ViewNode::Map(node), Body::Map(all_entries(alloc, entries)?)))
        }
        View::Entries(of) => {
            let (node, entries) = map_node(alloc, of, contents, 0)?;
            view_entries(alloc, node, entries)
        }
        View::Enumerate(of) => {
            let (node, items) = list_node(alloc, of, contents, 0)?;
            view_enumerated(alloc, node, items)
        }
    }
}

/// The entries of a map as a list.
fn view_entries(
    alloc: Global,
    of: MapNode,
    entries: Entries<i64>,
) -> Result<(ViewNode, Body), NoMemory>
    ensures ops { IfOk result (λ made. view_ops made.0 ≡ pairs_by entries (map_ops of)) }
    ensures body { IfOk result (λ made. made.1 ≡ Body.Pairs (VecDiff.Replace entries ∷ [])) }
{
    let mut op = EntriesOp::new(alloc);
    let values = op.start(&entries)?;
    Ok((
        ViewNode::Entries(op, of),
        Body::Pairs(all_items(alloc, values)?),
    ))
}

/// A list with tags, and the body of its first row.
fn view_enumerated(
    alloc: Global,
    of: ListNode,
    items: Items<i64>,
) -> Result<(ViewNode, Body), NoMemory>
    requires short { length items ≤ 65536 }
    ensures ops { IfOk result (λ made. view_ops made.0 ≡ tagged (enumeration_of items) (list_ops of)) }
    ensures body { IfOk result (λ made. made.1 ≡ Body.Tagged (VecDiff.Replace (tagged_from 0 items) ∷ [])) }
{
    let mut op = EnumerateOp::new(alloc);
    let elements = op.start(&items)?;
    Ok((
        ViewNode::Enumerate(op, of),
        Body::Tagged(all_items(alloc, elements)?),
    ))
}

/// The difference from the empty list to these items.
fn all_items<T: Drop>(alloc: Global, values: Items<T>) -> Result<Diffs<T>, NoMemory>
    ensures { IfOk result (λ diffs. diffs ≡ VecDiff.Replace values ∷ []) }
{
    let mut diffs = Diffs::new(alloc);
    diffs.push(VecDiff::Replace { values })?;
    Ok(diffs)
}

/// The difference from the empty map to these entries.
fn all_entries(alloc: Global, entries: Entries<i64>) -> Result<MapDiffs<i64>, NoMemory>
    ensures { IfOk result (λ diffs. diffs ≡ MapDiff.Replace entries ∷ []) }
{
    let mut diffs = MapDiffs::new(alloc);
    diffs.push(MapDiff::Replace { entries })?;
    Ok(diffs)
}
