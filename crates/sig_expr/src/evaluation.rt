ghost use Rattle.std.specs.Prelude.{◌≡◌, ◌≤◌, ◌+◌, ℕ, ◌++◌, pos, length, map, filter, IfOk, OnOk};
ghost use Rattle.std.specs.List.{flat_map};
ghost use Rattle.sig_diff.specs.Numbers.{clamped, total};
ghost use Rattle.sig_expr.specs.Bounds.{AreWithinBounds, IsWithinCap};
ghost use Rattle.sig_expr.specs.Leaves.{sig_leaves, vec_leaves, sigs_leaves, vecs_leaves, leaves, number_map, number_sig, number_vec, number_sigs, number_vecs, numbered};
ghost use Rattle.sig_diff.specs.Contents.{number_in, list_in, entries_in};
ghost use Rattle.sig_diff.specs.Choosing.{signal_for, list_for, is_let_in, raised_by};
ghost use Rattle.sig_expr.specs.Evaluation.{entries_of, value_of, list_of, signals_of, lists_of};
ghost use Rattle.sig_expr.specs.Shapes.{map_tree, sig_tree, vec_tree, sig_trees, vec_trees, view_tree};
ghost use Rattle.sig_expr.specs.Shows.{content_of, shows, DependsOnAwaited};

use crate::expressions::{MapExpr, SigExpr, VecExpr, View};
use crate::leaf_counts::{list_bank_leaves, list_leaves, signal_bank_leaves, signal_leaves};
use crate::shown::Shown;
use sig_diff::{Content, Entries, Items, LetIn, Lists, Mapper, NoMemory, RaisedBy};
use std::alloc::Global;

/// The content of each leaf, in the order of the leaves.
pub type Contents = Items<Content>;

/// What the view shows where each leaf has its content, whole and without tags. A content of another kind than its
/// leaf's counts as 0, or as empty. No list and no map in it is longer than its bound.
///
/// The sum of a filter that lets numbers from 3 on through shows 12 of the contents [5, 1, 7].
#[tactic(auto, using(crate::proofs::Awaiting::depends_on_awaited, crate::proofs::Bounded::within_bounds))]
pub fn eval_view(alloc: Global, view: &View, contents: &Contents) -> Result<Shown, NoMemory>
    requires { length (leaves (view_tree view.now)) ≡ length contents.now }
    ensures shown { IfOk result (λ shown. shown ≡ shows (numbered (view_tree view.now)) (content_of contents.now)) }
    ensures awaited { DependsOnAwaited (numbered (view_tree view.now)) (content_of contents.now) }
    ensures bounds { (cap : ℕ → ℕ) → ((leaf : ℕ) → IsWithinCap cap (content_of contents.now) leaf) → AreWithinBounds cap (content_of contents.now) }
{
    let contents = contents.as_slice();
    Ok(match view {
        View::Signal(e) => Shown::Signal(value_of(alloc, e, contents, 0)?),
        View::Vector(e) => Shown::Vector(list_of(alloc, e, contents, 0)?),
        View::Map(m) => Shown::Map(entries_of(alloc, m, contents, 0)?),
        View::Entries(m) => Shown::Pairs(entries_of(alloc, m, contents, 0)?.pairs()?),
        View::Enumerate(e) => Shown::Vector(list_of(alloc, e, contents, 0)?),
    })
}

// ---- what the leaves hold

/// A cell's number.
fn number_at(contents: &[Content], leaf: usize) -> i64
    ensures { result ≡ number_in (content_of contents.now leaf) }
{
    match contents.get(leaf) {
        Some(Content::Cell(number)) => *number,
        _ => 0,
    }
}

/// A vector's list.
fn list_at(alloc: Global, contents: &[Content], leaf: usize) -> Result<Items<i64>, NoMemory>
    ensures { IfOk result (λ list. list ≡ list_in (content_of contents.now leaf)) }
{
    match contents.get(leaf) {
        Some(Content::Vector(items)) => items.copy(),
        _ => Ok(Items::new(alloc)),
    }
}

/// A map's entries.
fn entries_at(alloc: Global, contents: &[Content], leaf: usize) -> Result<Entries<i64>, NoMemory>
    ensures { IfOk result (λ entries. entries ≡ entries_in (content_of contents.now leaf)) }
{
    match contents.get(leaf) {
        Some(Content::Map(entries)) => entries.copy(),
        _ => Ok(Entries::new(alloc)),
    }
}

// ---- signals and lists that a number chooses

/// The numbers whose signal isn't 0.
fn let_in(alloc: Global, signals: &[i64], numbers: &[i64]) -> Result<Items<i64>, NoMemory>
    ensures { IfOk result (λ list. list ≡ filter (is_let_in signals.now) numbers.now) }
{
    sig_diff::passing(alloc, &LetIn { signals }, numbers)
}

/// The numbers, each plus its signal.
fn raised(alloc: Global, signals: &[i64], numbers: &[i64]) -> Result<Items<i64>, NoMemory>
    ensures { IfOk result (λ list. list ≡ map (raised_by signals.now) numbers.now) }
{
    sig_diff::mapped(alloc, &RaisedBy { signals }, numbers)
}

/// Two lists, one behind the other.
fn joined(list: Items<i64>, rest: &[i64]) -> Result<Items<i64>, NoMemory>
    ensures { IfOk result (λ both. both ≡ list ++ rest.now) }
{
    let mut both = list.into_vec();
    both.extend_from_slice(rest)?;
    Ok(Items::from_vec(both))
}

/// Puts the list of the number's class at the end, where there is one.
fn push_list(all: &mut Vec<i64>, lists: &[Items<i64>], number: i64) -> Result<(), NoMemory>
    ensures { OnOk result (all.new.items ≡ all.old.items ++ list_for lists.now number) }
{
    if !lists.is_empty() {
        let place = sig_diff::class_of(number, lists.len());
        all.extend_from_slice(lists[place].as_slice())?;
    }
    Ok(())
}

/// The lists of the numbers' classes, joined.
fn flattened(alloc: Global, lists: &[Items<i64>], numbers: &[i64]) -> Result<Items<i64>, NoMemory>
    ensures { IfOk result (λ all. all ≡ flat_map (list_for lists.now) numbers.now) }
{
    let mut all = Vec::new(alloc);
    'numbers: for number in numbers {
        push_list(&mut all, lists, *number)?;
    }
    Ok(Items::from_vec(all))
}

/// The exact total, clamped once.
fn total_of(numbers: &[i64]) -> i64
    ensures { result ≡ clamped (total numbers.now) }
{
    let mut total = 0_i128;
    'numbers: for number in numbers {
        total += i128::from(*number);
    }
    sig_diff::clamped(total)
}

/// How many numbers there are.
fn length_of(numbers: Items<i64>) -> i64
    ensures { result ≡ pos (length numbers) }
{
    numbers.into_vec().len() as i64
}

// ---- expressions

/// A map's entries.
fn entries_of(
    alloc: Global,
    m: &MapExpr,
    contents: &[Content],
    first: usize,
) -> Result<Entries<i64>, NoMemory>
    ensures { IfOk result (λ entries. entries ≡ entries_of (content_of contents.now) (number_map (map_tree m.now) first)) }
{
    match m {
        MapExpr::Map(_) => entries_at(alloc, contents, first),
        MapExpr::MapValue(fun, m) => entries_of(alloc, m.get(), contents, first)?.map_values(fun),
    }
}

/// A signal's value.
#[cycle(evaluate)]
fn value_of(alloc: Global, e: &SigExpr, contents: &[Content], first: usize) -> Result<i64, NoMemory>
    requires { first + length (sig_leaves (sig_tree e.now)) ≤ length contents.now }
    ensures { IfOk result (λ value. value ≡ value_of (content_of contents.now) (number_sig (sig_tree e.now) first)) }
{
    match e {
        SigExpr::Cell(_) => Ok(number_at(contents, first)),
        SigExpr::Map(fun, e) => Ok(fun.call(value_of(alloc, e.get(), contents, first)?)),
        SigExpr::Dedupe(e) => value_of(alloc, e.get(), contents, first),
        SigExpr::Switch(e, bank) => {
            let chooser = value_of(alloc, e.get(), contents, first)?;
            let behind = first + signal_leaves(e.get());
            chosen_value(alloc, bank.as_slice(), contents, behind, chooser)
        }
        SigExpr::Len(e) => Ok(length_of(list_of(alloc, e.get(), contents, first)?)),
        SigExpr::Sum(e) => Ok(total_of(list_of(alloc, e.get(), contents, first)?.as_slice())),
        SigExpr::Key(key, default, m) => Ok(
            entries_of(alloc, m.get(), contents, first)?
                .get(*key)
                .unwrap_or(*default),
        ),
    }
}

/// A list's numbers.
#[cycle(evaluate)]
fn list_of(
    alloc: Global,
    e: &VecExpr,
    contents: &[Content],
    first: usize,
) -> Result<Items<i64>, NoMemory>
    requires { first + length (vec_leaves (vec_tree e.now)) ≤ length contents.now }
    ensures { IfOk result (λ list. list ≡ list_of (content_of contents.now) (number_vec (vec_tree e.now) first)) }
{
    match e {
        VecExpr::Vector(_) => list_at(alloc, contents, first),
        VecExpr::Map(fun, e) => {
            let list = list_of(alloc, e.get(), contents, first)?;
            sig_diff::mapped(alloc, fun, list.as_slice())
        }
        VecExpr::Filter(pred, e) => {
            let list = list_of(alloc, e.get(), contents, first)?;
            sig_diff::passing(alloc, pred, list.as_slice())
        }
        VecExpr::FilterBy(e, bank) => {
            let list = list_of(alloc, e.get(), contents, first)?;
            let behind = first + list_leaves(e.get());
            let signals = signals_of(alloc, bank.as_slice(), contents, behind)?;
            let_in(alloc, signals.as_slice(), list.as_slice())
        }
        VecExpr::MapBy(e, bank) => {
            let list = list_of(alloc, e.get(), contents, first)?;
            let behind = first + list_leaves(e.get());
            let signals = signals_of(alloc, bank.as_slice(), contents, behind)?;
            raised(alloc, signals.as_slice(), list.as_slice())
        }
        VecExpr::Sorted(fun, e) => Ok(sig_diff::in_order(
            fun,
            list_of(alloc, e.get(), contents, first)?,
        )),
        VecExpr::Concat(a, b) => {
            let list = list_of(alloc, a.get(), contents, first)?;
            let behind = first + list_leaves(a.get());
            let rest = list_of(alloc, b.get(), contents, behind)?;
            joined(list, rest.as_slice())
        }
        VecExpr::Flatten(e, bank) => {
            let list = list_of(alloc, e.get(), contents, first)?;
            let behind = first + list_leaves(e.get());
            let lists = lists_of(alloc, bank.as_slice(), contents, behind)?;
            flattened(alloc, lists.as_slice(), list.as_slice())
        }
        VecExpr::Pick(e, bank) => {
            let chooser = value_of(alloc, e.get(), contents, first)?;
            let behind = first + signal_leaves(e.get());
            chosen_list(alloc, bank.as_slice(), contents, behind, chooser)
        }
        VecExpr::Keys(m) => entries_of(alloc, m.get(), contents, first)?.keys(),
        VecExpr::Values(m) => entries_of(alloc, m.get(), contents, first)?.values(),
    }
}

/// The value of the signal that a number chooses of a bank: that signal alone is evaluated.
#[cycle(evaluate)]
#[tactic(auto, using(crate::proofs::Numbered::chosen_signals))]
fn chosen_value(
    alloc: Global,
    bank: &[SigExpr],
    contents: &[Content],
    first: usize,
    number: i64,
) -> Result<i64, NoMemory>
    requires { first + length (sigs_leaves (sig_trees (map sig_tree bank.now))) ≤ length contents.now }
    ensures { IfOk result (λ value. value ≡ signal_for (signals_of (content_of contents.now) (number_sigs (sig_trees (map sig_tree bank.now)) first)) number) }
{
    if bank.is_empty() {
        return Ok(0);
    }
    let place = sig_diff::class_of(number, bank.len());
    let before = signal_bank_leaves(&bank[..place]);
    value_of(alloc, &bank[place], contents, first + before)
}

/// The list that a number chooses of a bank: that list alone is evaluated.
#[cycle(evaluate)]
#[tactic(auto, using(crate::proofs::Numbered::chosen_lists))]
fn chosen_list(
    alloc: Global,
    bank: &[VecExpr],
    contents: &[Content],
    first: usize,
    number: i64,
) -> Result<Items<i64>, NoMemory>
    requires { first + length (vecs_leaves (vec_trees (map vec_tree bank.now))) ≤ length contents.now }
    ensures { IfOk result (λ list. list ≡ list_for (lists_of (content_of contents.now) (number_vecs (vec_trees (map vec_tree bank.now)) first)) number) }
{
    if bank.is_empty() {
        return Ok(Items::new(alloc));
    }
    let place = sig_diff::class_of(number, bank.len());
    let before = list_bank_leaves(&bank[..place]);
    list_of(alloc, &bank[place], contents, first + before)
}

/// The values of a bank's signals.
#[cycle(evaluate)]
fn signals_of(
    alloc: Global,
    bank: &[SigExpr],
    contents: &[Content],
    first: usize,
) -> Result<Items<i64>, NoMemory>
    requires { first + length (sigs_leaves (sig_trees (map sig_tree bank.now))) ≤ length contents.now }
    ensures { IfOk result (λ signals. signals ≡ signals_of (content_of contents.now) (number_sigs (sig_trees (map sig_tree bank.now)) first)) }
{
    let mut signals = Items::new(alloc);
    let mut place = first;
    'bank: for e in bank {
        signals.push(value_of(alloc, e, contents, place)?)?;
        place += signal_leaves(e);
    }
    Ok(signals)
}

/// The numbers of a bank's lists.
#[cycle(evaluate)]
fn lists_of(
    alloc: Global,
    bank: &[VecExpr],
    contents: &[Content],
    first: usize,
) -> Result<Lists, NoMemory>
    requires { first + length (vecs_leaves (vec_trees (map vec_tree bank.now))) ≤ length contents.now }
    ensures { IfOk result (λ lists. lists ≡ lists_of (content_of contents.now) (number_vecs (vec_trees (map vec_tree bank.now)) first)) }
{
    let mut lists = Items::new(alloc);
    let mut place = first;
    'bank: for e in bank {
        lists.push(list_of(alloc, e, contents, place)?)?;
        place += list_leaves(e);
    }
    Ok(lists)
}
