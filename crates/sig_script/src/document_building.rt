ghost use Rattle.std.specs.Prelude.{◌≡◌, [], true, IfOk, OnOk};
ghost use Rattle.std.specs.Option.{option_map_or};
ghost use Rattle.serde_json.specs.Data.{null};
ghost use Rattle.serde_json.specs.View.{view, items_view};
ghost use Rattle.sig_diff.specs.Entries.{with_value};
ghost use Rattle.sig_script.specs.Building.{content_from, defs, edit_def, edit_from, entries_in, event_def, event_for, index_in, item_in, number_in, numbers_in, script_among, script_of, share_def, source_def, source_for, view_def, view_of, writer_def};
ghost use Rattle.sig_script.specs.Fields.{item_count, list_at, members_in, value_at};
ghost use Rattle.sig_script.specs.Leaving.{has_no_leaves};
ghost use Rattle.sig_script.specs.Names.{all_names, name_in};

use crate::building::{Builder, defs, index_in, item_in, number_in};
use crate::expressions::{Scope, signal_of, source_for, view_of};
use crate::fields::{items_in, list_at, text_at, text_in, value_at};
use crate::grammar::{Meaning, Operation};
use crate::name_table::NameTable;
use crate::names::Lookup;
use crate::objects::{content_of, operation_of, shown_of};
use crate::types::{Event, Script, ShareDef, SourceDef, ViewDef, WriterDef};
use serde_json::Value;
use sig_diff::{Content, Entries, Items, Kind, Name, NoMemory, VecDiff};
use sig_expr::{VecExpr, View};
use sig_hist::Edit;
use std::alloc::Global;

/// The script that a document says, where its shape, its names and its limits are right.
#[tactic(auto, using(crate::proofs::Leaving::no_leaves))]
pub fn script_of(alloc: Global, document: &Value, names: &NameTable<'_>) -> Result<Script, NoMemory>
    requires { names.now ≡ all_names (members_in (view document.now)) }
    ensures script { IfOk result (λ script. script ≡ script_of (members_in (view document.now))) }
    ensures no_leaves { IfOk result (λ script. has_no_leaves script ≡ true) }
{
    let scope = Scope {
        alloc,
        names,
        sources: count(list_at(document, "sources")),
    };
    script_among(&scope, document)
}

/// The script that a document says, where its names stand for what the scope says.
fn script_among<L: Lookup>(scope: &Scope<'_, L>, document: &Value) -> Result<Script, NoMemory>
    ensures { IfOk result (λ script. script ≡ script_among (L.names scope.now.names.now)
        scope.now.sources (members_in (view document.now))) }
{
    let alloc = scope.alloc;
    Ok(Script {
        version: 1,
        sources: defs_at(alloc, &Sources { alloc }, document, "sources")?,
        shares: defs_at(alloc, &Shares { scope }, document, "shares")?,
        writers: defs_at(alloc, &Writers { scope }, document, "writers")?,
        views: defs_at(alloc, &Views { scope }, document, "views")?,
        schedule: defs_at(alloc, &Schedule { scope }, document, "schedule")?,
    })
}

/// What is built of each value of the list in a field.
fn defs_at<B: Builder>(
    alloc: Global,
    builder: &B,
    value: &Value,
    name: &str,
) -> Result<Items<B::Built>, NoMemory>
    ensures { IfOk result (λ list. list
        ≡ defs (B.builds builder.now) (list_at name.now (members_in (view value.now)))) }
{
    defs(alloc, builder, list_at(value, name))
}

/// How many values a list has.
#[tactic(auto, using(crate::proofs::Counts::item_count_seen))]
fn count(values: &[Value]) -> usize
    ensures { result ≡ item_count (items_view values.now) }
{
    values.len()
}

#[derive(Drop)]
struct Numbers;

impl Builder for Numbers {
    ghost use Rattle.sig_script.specs.Building.{number_in};

    type Built = i64;

    ghost builds = { λ _ value. number_in value };

    fn build(&self, value: &Value) -> Result<i64, NoMemory> {
        Ok(number_in(value))
    }
}

#[derive(Drop)]
struct Sources {
    alloc: Global,
}

impl Builder for Sources {
    ghost use Rattle.sig_script.specs.Building.{source_def};

    type Built = SourceDef;

    ghost builds = { λ _ value. source_def value };

    fn build(&self, value: &Value) -> Result<SourceDef, NoMemory> {
        source_def(self.alloc, value)
    }
}

#[derive(Drop)]
struct Shares<'s, 'n, L> {
    scope: &'s Scope<'n, L>,
}

impl<L: Lookup> Builder for Shares<'_, '_, L> {
    ghost use Rattle.sig_script.specs.Building.{share_def};

    type Built = ShareDef;

    ghost builds = { λ shares value. share_def (L.names shares.scope.now.names.now) shares.scope.now.sources value };

    fn build(&self, value: &Value) -> Result<ShareDef, NoMemory> {
        share_def(self.scope, value)
    }
}

#[derive(Drop)]
struct Writers<'s, 'n, L> {
    scope: &'s Scope<'n, L>,
}

impl<L: Lookup> Builder for Writers<'_, '_, L> {
    ghost use Rattle.sig_script.specs.Building.{writer_def};

    type Built = WriterDef;

    ghost builds = { λ writers value. writer_def (L.names writers.scope.now.names.now) writers.scope.now.sources value };

    fn build(&self, value: &Value) -> Result<WriterDef, NoMemory> {
        writer_def(self.scope, value)
    }
}

#[derive(Drop)]
struct Edits<'s, 'n, L> {
    scope: &'s Scope<'n, L>,
}

impl<L: Lookup> Builder for Edits<'_, '_, L> {
    ghost use Rattle.sig_script.specs.Building.{edit_def};

    type Built = (usize, Edit);

    ghost builds = { λ edits value. edit_def (L.names edits.scope.now.names.now) edits.scope.now.sources value };

    fn build(&self, value: &Value) -> Result<(usize, Edit), NoMemory> {
        edit_def(self.scope, value)
    }
}

#[derive(Drop)]
struct Views<'s, 'n, L> {
    scope: &'s Scope<'n, L>,
}

impl<L: Lookup> Builder for Views<'_, '_, L> {
    ghost use Rattle.sig_script.specs.Building.{view_def};

    type Built = ViewDef;

    ghost builds = { λ views value. view_def (L.names views.scope.now.names.now) views.scope.now.sources value };

    fn build(&self, value: &Value) -> Result<ViewDef, NoMemory> {
        view_def(self.scope, value)
    }
}

#[derive(Drop)]
struct Schedule<'s, 'n, L> {
    scope: &'s Scope<'n, L>,
}

impl<L: Lookup> Builder for Schedule<'_, '_, L> {
    ghost use Rattle.sig_script.specs.Building.{event_def};

    type Built = Event;

    ghost builds = { λ schedule value. event_def (L.names schedule.scope.now.names.now) schedule.scope.now.sources value };

    fn build(&self, value: &Value) -> Result<Event, NoMemory> {
        Ok(event_def(self.scope, value))
    }
}

/// The numbers of a list.
fn numbers_in(alloc: Global, value: &Value) -> Result<Items<i64>, NoMemory>
    ensures { IfOk result (λ numbers. numbers ≡ numbers_in (view value.now)) }
{
    defs(alloc, &Numbers, items_in(value))
}

/// The map of a list of pairs.
fn entries_in(alloc: Global, values: &[Value]) -> Result<Entries<i64>, NoMemory>
    ensures { IfOk result (λ entries. entries ≡ entries_in [] (items_view values.now)) }
{
    let mut entries = Entries::new(alloc);
    'values: for value in values {
        put(&mut entries, number_at(value, 0), number_at(value, 1))?;
    }
    Ok(entries)
}

/// Gives a key its value, whether the map has the key or not.
fn put(entries: &mut Entries<i64>, key: i64, value: i64) -> Result<(), NoMemory>
    ensures { OnOk result (entries.new ≡ with_value key value entries.old) }
{
    match entries.search(key) {
        Ok(_) => {
            entries.update(key, value);
            Ok(())
        }
        Err(_) => entries.insert(key, value),
    }
}

/// The number at a place of a list, and 0 where there is none.
fn number_at(value: &Value, place: usize) -> i64
    ensures { result ≡ number_in (item_in place (view value.now)) }
{
    match item_in(value, place) {
        Some(number) => number_in(number),
        None => 0,
    }
}

/// The index at a place of a list, and 0 where there is none.
fn index_at(value: &Value, place: usize) -> u32
    ensures { result ≡ index_in (item_in place (view value.now)) }
{
    match item_in(value, place) {
        Some(index) => index_in(index),
        None => 0,
    }
}

/// The name of a source, a share, a writer or a view.
fn name_in(alloc: Global, value: &Value) -> Result<Name, NoMemory>
    ensures { IfOk result (λ name. name ≡ name_in (view value.now)) }
{
    Ok(Items::from_vec(Vec::from_slice(alloc, text_at(value, "name"))?))
}

fn source_def(alloc: Global, value: &Value) -> Result<SourceDef, NoMemory>
    ensures { IfOk result (λ built. built ≡ source_def (view value.now)) }
{
    Ok(SourceDef {
        name: name_in(alloc, value)?,
        start: start_of(alloc, value)?,
    })
}

/// What a source starts with.
fn start_of(alloc: Global, value: &Value) -> Result<Content, NoMemory>
    ensures { IfOk result (λ built. built ≡ (source_def (view value.now)).start) }
{
    match content_of(value) {
        Some((kind, content)) => content_from(alloc, kind, content),
        None => Ok(Content::Cell(0)),
    }
}

fn content_from(alloc: Global, kind: Kind, value: &Value) -> Result<Content, NoMemory>
    ensures { IfOk result (λ built. built ≡ content_from kind (view value.now)) }
{
    Ok(match kind {
        Kind::Cell => Content::Cell(number_in(value)),
        Kind::Vector => Content::Vector(numbers_in(alloc, value)?),
        Kind::Map => Content::Map(entries_in(alloc, items_in(value))?),
    })
}

fn share_def<L: Lookup>(scope: &Scope<'_, L>, value: &Value) -> Result<ShareDef, NoMemory>
    ensures { IfOk result (λ built. built ≡
        share_def (L.names scope.now.names.now) scope.now.sources (view value.now)) }
{
    Ok(ShareDef {
        name: name_in(scope.alloc, value)?,
        start: number_in(field_or(value, "start", &Value::Null)),
        signal: signal_of(scope, field_or(value, "signal", &Value::Null))?,
    })
}

/// The value of a field, and another value where there is none.
fn field_or<'v>(value: &'v Value, name: &str, absent: &'v Value) -> &'v Value
    requires { view absent.now ≡ null }
    ensures { view result.now ≡ value_at name.now (members_in (view value.now)) }
{
    value_at(value, name).unwrap_or(absent)
}

fn writer_def<L: Lookup>(scope: &Scope<'_, L>, value: &Value) -> Result<WriterDef, NoMemory>
    ensures { IfOk result (λ built. built ≡
        writer_def (L.names scope.now.names.now) scope.now.sources (view value.now)) }
{
    Ok(WriterDef {
        name: name_in(scope.alloc, value)?,
        edits: defs_at(scope.alloc, &Edits { scope }, value, "edits")?,
    })
}

/// An edit, with the number of the source that it is made on.
fn edit_def<L: Lookup>(scope: &Scope<'_, L>, value: &Value) -> Result<(usize, Edit), NoMemory>
    ensures { IfOk result (λ built. built ≡
        edit_def (L.names scope.now.names.now) scope.now.sources (view value.now)) }
{
    let source = source_for(scope, field_or(value, "on", &Value::Null))?;
    match operation_of(value) {
        Some((operation, value)) => Ok((source, edit_from(scope.alloc, operation, value)?)),
        None => Ok((source, Edit::Wipe)),
    }
}

/// What an operation does.
fn edit_from(alloc: Global, operation: Operation, value: &Value) -> Result<Edit, NoMemory>
    ensures { IfOk result (λ built. built ≡ edit_from operation (view value.now)) }
{
    Ok(match operation {
        Operation::Replace => Edit::Vector(VecDiff::Replace {
            values: numbers_in(alloc, value)?,
        }),
        Operation::Insert => Edit::Vector(VecDiff::InsertAt {
            index: index_at(value, 0),
            value: number_at(value, 1),
        }),
        Operation::Update => Edit::Vector(VecDiff::UpdateAt {
            index: index_at(value, 0),
            value: number_at(value, 1),
        }),
        Operation::Remove => Edit::Vector(VecDiff::RemoveAt {
            index: index_in(value),
        }),
        Operation::Move => Edit::Vector(VecDiff::Move {
            old_index: index_at(value, 0),
            new_index: index_at(value, 1),
        }),
        Operation::Push => Edit::Vector(VecDiff::Push {
            value: number_in(value),
        }),
        Operation::Pop => Edit::Vector(VecDiff::Pop),
        Operation::Clear => Edit::Vector(VecDiff::Clear),
        Operation::Set => Edit::Set(number_in(value)),
        Operation::SetNeq => Edit::SetNeq(number_in(value)),
        Operation::Add => Edit::Add(number_in(value)),
        Operation::Put => Edit::Put(number_at(value, 0), number_at(value, 1)),
        Operation::Delete => Edit::Delete(number_in(value)),
        Operation::Load => Edit::Load(entries_in(alloc, items_in(value))?),
        Operation::Wipe => Edit::Wipe,
    })
}

fn view_def<L: Lookup>(scope: &Scope<'_, L>, value: &Value) -> Result<ViewDef, NoMemory>
    ensures { IfOk result (λ built. built ≡
        view_def (L.names scope.now.names.now) scope.now.sources (view value.now)) }
{
    Ok(ViewDef {
        name: name_in(scope.alloc, value)?,
        view: view_in(scope, value)?,
    })
}

/// What a view shows.
fn view_in<L: Lookup>(scope: &Scope<'_, L>, value: &Value) -> Result<View, NoMemory>
    ensures { IfOk result (λ built. built ≡
        (view_def (L.names scope.now.names.now) scope.now.sources (view value.now)).view) }
{
    match shown_of(value) {
        Some((kind, shown)) => view_of(scope, kind, shown),
        None => Ok(View::Vector(VecExpr::Vector(0))),
    }
}

fn event_def<L: Lookup>(scope: &Scope<'_, L>, value: &Value) -> Event
    ensures { result ≡ event_def (L.names scope.now.names.now) scope.now.sources (view value.now) }
{
    match scope.names.meaning(text_in(value)) {
        Some(Meaning::Writer(number)) => Event::Writer(number),
        Some(Meaning::Share(number)) => Event::Share(number),
        Some(Meaning::View(number)) => Event::View(number),
        _ => Event::View(0),
    }
}
