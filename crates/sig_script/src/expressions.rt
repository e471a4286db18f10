ghost use Rattle.std.specs.Prelude.{◌≡◌, IfOk};
ghost use Rattle.serde_json.specs.Data.{null};
ghost use Rattle.serde_json.specs.View.{view, items_view};
ghost use Rattle.sig_script.specs.Building.{defs, map_built, map_from, map_of, number_for, signal_built, signal_from, signal_of, source_for, vector_built, vector_from, vector_of, view_of};
ghost use Rattle.sig_script.specs.Forms.{fields_seen};

use crate::building::{function_from, item_in, number_in, test_from};
use crate::fields::{items_in, text_in};
use crate::grammar::{Class, Form, Meaning, Node, ViewKind, form_of};
use crate::names::Lookup;
use crate::walks::MOST_LEVELS;
use serde_json::Value;
use sig_diff::{Boxed, Items, NoMemory};
use sig_expr::{MapExpr, SigBank, SigExpr, VecBank, VecExpr, View};
use std::alloc::{AllocError, Global};

/// Where expressions are built: what their names stand for, and how many sources there are. Shares count
/// after the sources.
#[derive(Drop)]
pub struct Scope<'n, L> {
    pub alloc: Global,
    pub names: &'n L,
    pub sources: usize,
}

/// What a view shows.
pub fn view_of<L: Lookup>(
    scope: &Scope<'_, L>,
    kind: ViewKind,
    value: &Value,
) -> Result<View, NoMemory>
    ensures { IfOk result (λ built. built ≡
        view_of (L.names scope.now.names.now) scope.now.sources kind (view value.now)) }
{
    Ok(match kind {
        ViewKind::Signal => View::Signal(signal_of(scope, value)?),
        ViewKind::Vector => View::Vector(vector_of(scope, value)?),
        ViewKind::Map => View::Map(map_of(scope, value)?),
        ViewKind::Entries => View::Entries(map_of(scope, value)?),
        ViewKind::Enumerate => View::Enumerate(vector_of(scope, value)?),
    })
}

#[tactic(auto, unfolding(crate::specs::Building::signal_of))]
pub fn signal_of<L: Lookup>(scope: &Scope<'_, L>, value: &Value) -> Result<SigExpr, NoMemory>
    ensures { IfOk result (λ built. built ≡
        signal_of (L.names scope.now.names.now) scope.now.sources (view value.now)) }
{
    signal_from(scope, MOST_LEVELS, value)
}

#[tactic(auto, unfolding(crate::specs::Building::vector_of))]
fn vector_of<L: Lookup>(scope: &Scope<'_, L>, value: &Value) -> Result<VecExpr, NoMemory>
    ensures { IfOk result (λ built. built ≡
        vector_of (L.names scope.now.names.now) scope.now.sources (view value.now)) }
{
    vector_from(scope, MOST_LEVELS, value)
}

#[tactic(auto, unfolding(crate::specs::Building::map_of))]
fn map_of<L: Lookup>(scope: &Scope<'_, L>, value: &Value) -> Result<MapExpr, NoMemory>
    ensures { IfOk result (λ built. built ≡
        map_of (L.names scope.now.names.now) scope.now.sources (view value.now)) }
{
    map_from(scope, MOST_LEVELS, value)
}

/// The number of the source that a name stands for.
pub fn source_for<L: Lookup>(scope: &Scope<'_, L>, value: &Value) -> Result<usize, NoMemory>
    ensures { IfOk result (λ number. number ≡
        source_for (L.names scope.now.names.now) scope.now.sources (view value.now)) }
{
    match scope.names.meaning(text_in(value)) {
        Some(Meaning::Source(number, _)) => Ok(number),
        Some(Meaning::Share(number)) => scope.sources.checked_add(number).ok_or(AllocError),
        _ => Ok(0),
    }
}

#[cycle(built)]
fn signal_from<L: Lookup>(
    scope: &Scope<'_, L>,
    levels: u32,
    value: &Value,
) -> Result<SigExpr, NoMemory>
    ensures { IfOk result (λ built. built ≡
        signal_from (L.names scope.now.names.now) scope.now.sources levels (view value.now)) }
{
    if levels == 0 {
        return Ok(SigExpr::Cell(0));
    }
    match form_of(Class::Signal, value) {
        Some(form) => signal_built(scope, levels - 1, &form, &Value::Null),
        None => Ok(SigExpr::Cell(0)),
    }
}

#[cycle(built)]
fn signal_built<L: Lookup>(
    scope: &Scope<'_, L>,
    levels: u32,
    form: &Form<'_>,
    absent: &Value,
) -> Result<SigExpr, NoMemory>
    requires { view absent.now ≡ null }
    ensures { IfOk result (λ built. let names = L.names scope.now.names.now in
        let sources = scope.now.sources in built ≡ signal_built names sources
        (signal_from names sources levels) (vector_from names sources levels)
        (map_from names sources levels) form.now.node (fields_seen form.now.fields)) }
{
    let (first, second, third) = form.fields.values(absent);
    match form.node {
        Node::Cell => Ok(SigExpr::Cell(source_for(scope, first)?)),
        Node::MapSignal => Ok(SigExpr::Map(
            function_from(first),
            boxed_signal(scope, levels, second)?,
        )),
        Node::Dedupe => Ok(SigExpr::Dedupe(boxed_signal(scope, levels, first)?)),
        Node::Switch => Ok(SigExpr::Switch(
            boxed_signal(scope, levels, first)?,
            signals(scope, levels, items_in(second))?,
        )),
        Node::Len => Ok(SigExpr::Len(boxed_vector(scope, levels, first)?)),
        Node::Sum => Ok(SigExpr::Sum(boxed_vector(scope, levels, first)?)),
        Node::Key => Ok(SigExpr::Key(
            number_in(first),
            number_in(second),
            boxed_map(scope, levels, third)?,
        )),
        _ => Ok(SigExpr::Cell(0)),
    }
}

#[cycle(built)]
fn boxed_signal<L: Lookup>(
    scope: &Scope<'_, L>,
    levels: u32,
    value: &Value,
) -> Result<Boxed<SigExpr>, NoMemory>
    ensures { IfOk result (λ built. built ≡
        signal_from (L.names scope.now.names.now) scope.now.sources levels (view value.now)) }
{
    Boxed::new(scope.alloc, signal_from(scope, levels, value)?)
}

#[cycle(built)]
fn signals<L: Lookup>(
    scope: &Scope<'_, L>,
    levels: u32,
    values: &[Value],
) -> Result<SigBank, NoMemory>
    ensures { IfOk result (λ built. built ≡ defs
        (signal_from (L.names scope.now.names.now) scope.now.sources levels) (items_view values.now)) }
{
    let mut bank = Items::new(scope.alloc);
    'values: for value in values {
        bank.push(signal_from(scope, levels, value)?)?;
    }
    Ok(bank)
}

#[cycle(built)]
fn vector_from<L: Lookup>(
    scope: &Scope<'_, L>,
    levels: u32,
    value: &Value,
) -> Result<VecExpr, NoMemory>
    ensures { IfOk result (λ built. built ≡
        vector_from (L.names scope.now.names.now) scope.now.sources levels (view value.now)) }
{
    if levels == 0 {
        return Ok(VecExpr::Vector(0));
    }
    match form_of(Class::Vector, value) {
        Some(form) => vector_built(scope, levels - 1, &form, &Value::Null),
        None => Ok(VecExpr::Vector(0)),
    }
}

#[cycle(built)]
fn vector_built<L: Lookup>(
    scope: &Scope<'_, L>,
    levels: u32,
    form: &Form<'_>,
    absent: &Value,
) -> Result<VecExpr, NoMemory>
    requires { view absent.now ≡ null }
    ensures { IfOk result (λ built. let names = L.names scope.now.names.now in
        let sources = scope.now.sources in built ≡ vector_built names sources
        (signal_from names sources levels) (vector_from names sources levels)
        (map_from names sources levels) form.now.node (fields_seen form.now.fields)) }
{
    let (first, second, _) = form.fields.values(absent);
    match form.node {
        Node::Vector => Ok(VecExpr::Vector(source_for(scope, first)?)),
        Node::MapVector => Ok(VecExpr::Map(
            function_from(first),
            boxed_vector(scope, levels, second)?,
        )),
        Node::Filter => Ok(VecExpr::Filter(test_from(first), boxed_vector(scope, levels, second)?)),
        Node::FilterBy => Ok(VecExpr::FilterBy(
            boxed_vector(scope, levels, first)?,
            signals(scope, levels, items_in(second))?,
        )),
        Node::MapBy => Ok(VecExpr::MapBy(
            boxed_vector(scope, levels, first)?,
            signals(scope, levels, items_in(second))?,
        )),
        Node::Sorted => Ok(VecExpr::Sorted(
            function_from(first),
            boxed_vector(scope, levels, second)?,
        )),
        Node::Concat => Ok(VecExpr::Concat(
            boxed_vector(scope, levels, item_in(first, 0).unwrap_or(absent))?,
            boxed_vector(scope, levels, item_in(first, 1).unwrap_or(absent))?,
        )),
        Node::Flatten => Ok(VecExpr::Flatten(
            boxed_vector(scope, levels, first)?,
            vectors(scope, levels, items_in(second))?,
        )),
        Node::Pick => Ok(VecExpr::Pick(
            boxed_signal(scope, levels, first)?,
            vectors(scope, levels, items_in(second))?,
        )),
        Node::Keys => Ok(VecExpr::Keys(boxed_map(scope, levels, first)?)),
        Node::Values => Ok(VecExpr::Values(boxed_map(scope, levels, first)?)),
        _ => Ok(VecExpr::Vector(0)),
    }
}

#[cycle(built)]
fn boxed_vector<L: Lookup>(
    scope: &Scope<'_, L>,
    levels: u32,
    value: &Value,
) -> Result<Boxed<VecExpr>, NoMemory>
    ensures { IfOk result (λ built. built ≡
        vector_from (L.names scope.now.names.now) scope.now.sources levels (view value.now)) }
{
    Boxed::new(scope.alloc, vector_from(scope, levels, value)?)
}

#[cycle(built)]
fn vectors<L: Lookup>(
    scope: &Scope<'_, L>,
    levels: u32,
    values: &[Value],
) -> Result<VecBank, NoMemory>
    ensures { IfOk result (λ built. built ≡ defs
        (vector_from (L.names scope.now.names.now) scope.now.sources levels) (items_view values.now)) }
{
    let mut bank = Items::new(scope.alloc);
    'values: for value in values {
        bank.push(vector_from(scope, levels, value)?)?;
    }
    Ok(bank)
}

#[cycle(maps)]
fn map_from<L: Lookup>(
    scope: &Scope<'_, L>,
    levels: u32,
    value: &Value,
) -> Result<MapExpr, NoMemory>
    ensures { IfOk result (λ built. built ≡
        map_from (L.names scope.now.names.now) scope.now.sources levels (view value.now)) }
{
    if levels == 0 {
        return Ok(MapExpr::Map(0));
    }
    match form_of(Class::Map, value) {
        Some(form) => map_built(scope, levels - 1, &form, &Value::Null),
        None => Ok(MapExpr::Map(0)),
    }
}

#[cycle(maps)]
fn map_built<L: Lookup>(
    scope: &Scope<'_, L>,
    levels: u32,
    form: &Form<'_>,
    absent: &Value,
) -> Result<MapExpr, NoMemory>
    requires { view absent.now ≡ null }
    ensures { IfOk result (λ built. let names = L.names scope.now.names.now in
        let sources = scope.now.sources in built ≡ map_built names sources
        (signal_from names sources levels) (vector_from names sources levels)
        (map_from names sources levels) form.now.node (fields_seen form.now.fields)) }
{
    let (first, second, _) = form.fields.values(absent);
    match form.node {
        Node::Map => Ok(MapExpr::Map(source_for(scope, first)?)),
        Node::MapValue => Ok(MapExpr::MapValue(
            function_from(first),
            boxed_map(scope, levels, second)?,
        )),
        _ => Ok(MapExpr::Map(0)),
    }
}

#[cycle(maps)]
fn boxed_map<L: Lookup>(
    scope: &Scope<'_, L>,
    levels: u32,
    value: &Value,
) -> Result<Boxed<MapExpr>, NoMemory>
    ensures { IfOk result (λ built. built ≡
        map_from (L.names scope.now.names.now) scope.now.sources levels (view value.now)) }
{
    Boxed::new(scope.alloc, map_from(scope, levels, value)?)
}
