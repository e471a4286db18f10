ghost use Rattle.std.specs.Prelude.{◌≡◌, ◌+◌, ◌++◌, codes, length, IfOk, OnOk};
ghost use Rattle.serde_json.specs.View.{view, items_view};
ghost use Rattle.sig_script.specs.Fields.{item_count, list_at, members_in, value_at};
ghost use Rattle.sig_script.specs.Finding.{Finds};
ghost use Rattle.sig_script.specs.NamePasses.{named_fault, stands_for};
ghost use Rattle.sig_script.specs.Names.{after_names, all_names, is_edited, is_scheduled, kind_in, known_fault, known_names, names_fault, names_from, new_name_fault, share_names, shown_names, view_names, writer_names};
ghost use Rattle.sig_script.specs.Paths.{below, first_in};
ghost use Rattle.sig_script.specs.Walks.{expression_fault};

use crate::fields::{list_at, text_at, text_in, value_at};
use crate::grammar::{Class, Meaning};
use crate::name_table::NameTable;
use crate::names::{KnownNames, Lookup, is_source};
use crate::objects::{class_of_view, content_of, kind_for, operation_of, shown_of, view_kind_name};
use crate::paths::{Finder, Stop, below, first_in, here_unless};
use crate::walks::expression_fault;
use serde_json::Value;
use sig_diff::{Kind, NoMemory};
use std::alloc::Global;

/// What has a name in a document.
#[derive(Clone, Copy)]
pub enum Named {
    Source,
    Share,
    Writer,
    View,
}

/// The names of a document, where each is new and stands for what is asked, or the first fault of a name.
pub fn names_of<'v>(alloc: Global, document: &'v Value) -> Result<NameTable<'v>, Stop>
    ensures faults { Finds result (names_fault (members_in (view document.now))) }
    ensures names { IfOk result (λ names. names ≡ all_names (members_in (view document.now))) }
{
    let mut names = NameTable::new(alloc);
    let shares = add_names(&mut names, document, "sources", Named::Source)?;
    let writers = add_names(&mut names, document, "shares", Named::Share)?;
    let views = add_names(&mut names, document, "writers", Named::Writer)?;
    add_names(&mut names, document, "views", Named::View)?;
    names_fault(alloc, document, &names, shares, writers, views)?;
    Ok(names)
}

/// Adds the names of the list in a field, and says how many names there are then.
fn add_names<'v>(
    names: &mut NameTable<'v>,
    document: &'v Value,
    field: &str,
    named: Named,
) -> Result<usize, NoMemory>
    ensures added { let values = list_at field.now (members_in (view document.now)) in
        OnOk result (names.new ≡ names.old ++ names_from (stands_for named) 0 values) }
    ensures now { IfOk result (λ count. count ≡ length names.new) }
    ensures count { let values = list_at field.now (members_in (view document.now)) in
        IfOk result (λ count. count ≡ length names.old + item_count values) }
{
    add_all(names, list_at(document, field), named)?;
    Ok(names.len())
}

fn add_all<'v>(names: &mut NameTable<'v>, values: &'v [Value], named: Named) -> Result<(), NoMemory>
    ensures { OnOk result (names.new ≡ names.old ++ names_from (stands_for named) 0 (items_view values.now)) }
{
    'values: for (number, value) in values.iter().enumerate() {
        names.add(text_at(value, "name"), stands_for(named, number, value))?;
    }
    Ok(())
}

/// What the name of a value with a number stands for.
fn stands_for(named: Named, number: usize, value: &Value) -> Meaning
    ensures { result ≡ stands_for named number (view value.now) }
{
    match named {
        Named::Source => Meaning::Source(number, kind_in(value)),
        Named::Share => Meaning::Share(number),
        Named::Writer => Meaning::Writer(number),
        Named::View => Meaning::View(number),
    }
}

fn kind_in(source: &Value) -> Kind
    ensures { result ≡ kind_in (view source.now) }
{
    match content_of(source) {
        Some((kind, _)) => kind,
        None => Kind::Cell,
    }
}

/// The first fault of a name, where so many names come before the shares', the writers' and the views'.
fn names_fault(
    alloc: Global,
    document: &Value,
    names: &NameTable<'_>,
    shares: usize,
    writers: usize,
    views: usize,
) -> Result<(), Stop>
    requires names { names.now ≡ all_names (members_in (view document.now)) }
    requires shares { shares ≡ item_count (list_at (codes "sources") (members_in (view document.now))) }
    requires writers { writers ≡ shares + item_count (list_at (codes "shares") (members_in (view document.now))) }
    requires views { views ≡ writers + item_count (list_at (codes "writers") (members_in (view document.now))) }
    ensures { Finds result (names_fault (members_in (view document.now))) }
{
    list_names(alloc, document, "sources", names, Named::Source, 0)?;
    list_names(alloc, document, "shares", names, Named::Share, shares)?;
    list_names(alloc, document, "writers", names, Named::Writer, writers)?;
    list_names(alloc, document, "views", names, Named::View, views)?;
    schedule_names(alloc, document, names)
}

/// The first fault of a name in a list, where so many names come before the list's.
fn list_names(
    alloc: Global,
    document: &Value,
    field: &str,
    names: &NameTable<'_>,
    named: Named,
    first: usize,
) -> Result<(), Stop>
    ensures { let values = list_at field.now (members_in (view document.now)) in
        Finds result (below field.now (after_names names.now first (named_fault named) values)) }
{
    let finder = Following {
        names,
        named,
        first,
    };
    below(
        alloc,
        field,
        first_in(alloc, &finder, list_at(document, field)),
    )
}

fn schedule_names(alloc: Global, document: &Value, names: &NameTable<'_>) -> Result<(), Stop>
    ensures { let events = list_at (codes "schedule") (members_in (view document.now)) in
        Finds result (below (codes "schedule") (first_in (λ place. known_fault names.now is_scheduled) events)) }
{
    let events = list_at(document, "schedule");
    below(
        alloc,
        "schedule",
        first_in(alloc, &Events { names }, events),
    )
}

/// The faults of a list whose names follow the first ones.
#[derive(Drop)]
struct Following<'n, 'v> {
    names: &'n NameTable<'v>,
    named: Named,
    first: usize,
}

impl Finder for Following<'_, '_> {
    ghost use Rattle.std.specs.Prelude.{◌+◌, take};
    ghost use Rattle.sig_script.specs.NamePasses.{named_fault};

    ghost finds = { λ list place value. named_fault list.named (take (list.first + place) list.names.now) value };

    fn fault(&self, alloc: Global, place: usize, value: &Value) -> Result<(), Stop> {
        let names = NamesBefore {
            names: self.names,
            first: self.first,
            place,
        };
        named_fault(alloc, self.named, &names, value)
    }
}

/// The names before the one at a place of a list whose names follow the first ones.
#[derive(Drop)]
struct NamesBefore<'n, 'v> {
    names: &'n NameTable<'v>,
    first: usize,
    place: usize,
}

impl Lookup for NamesBefore<'_, '_> {
    ghost use Rattle.std.specs.Prelude.{◌+◌, take};

    ghost names = { λ before. take (before.first + before.place) before.names.now };

    fn meaning(&self, name: &[u8]) -> Option<Meaning> {
        self.names.meaning_before(self.first, self.place, name)
    }
}

fn named_fault<L: Lookup>(alloc: Global, named: Named, names: &L, value: &Value) -> Result<(), Stop>
    ensures { Finds result (named_fault named (L.names names.now) (view value.now)) }
{
    match named {
        Named::Source => new_name_fault(alloc, names, value),
        Named::Share => share_names(alloc, names, value),
        Named::Writer => writer_names(alloc, names, value),
        Named::View => view_names(alloc, names, value),
    }
}

/// The fault of a name that was used before.
fn new_name_fault<L: Lookup>(alloc: Global, names: &L, value: &Value) -> Result<(), Stop>
    ensures { Finds result (new_name_fault (L.names names.now) (view value.now)) }
{
    let is_new = names.meaning(text_at(value, "name")).is_none();
    below(alloc, "name", here_unless(alloc, is_new))
}

fn share_names<L: Lookup>(alloc: Global, names: &L, share: &Value) -> Result<(), Stop>
    ensures { Finds result (share_names (L.names names.now) (view share.now)) }
{
    new_name_fault(alloc, names, share)?;
    signal_names(alloc, names, share)
}

fn signal_names<L: Lookup>(alloc: Global, names: &L, share: &Value) -> Result<(), Stop>
    ensures { let signal = value_at (codes "signal") (members_in (view share.now)) in
        let visit = known_names (L.names names.now) in
        Finds result (below (codes "signal") (expression_fault visit Class.Signal signal)) }
{
    let signal = value_at(share, "signal").unwrap_or(&Value::Null);
    expression_names(alloc, names, "signal", Class::Signal, signal)
}

/// The first fault of a name in the expression in a field.
fn expression_names<L: Lookup>(
    alloc: Global,
    names: &L,
    field: &str,
    class: Class,
    value: &Value,
) -> Result<(), Stop>
    ensures { let visit = known_names (L.names names.now) in
        Finds result (below field.now (expression_fault visit class (view value.now))) }
{
    below(
        alloc,
        field,
        expression_fault(alloc, &KnownNames { names }, class, value),
    )
}

fn writer_names<L: Lookup>(alloc: Global, names: &L, writer: &Value) -> Result<(), Stop>
    ensures { Finds result (writer_names (L.names names.now) (view writer.now)) }
{
    new_name_fault(alloc, names, writer)?;
    below(
        alloc,
        "edits",
        first_in(alloc, &Edits { names }, list_at(writer, "edits")),
    )
}

fn view_names<L: Lookup>(alloc: Global, names: &L, shown: &Value) -> Result<(), Stop>
    ensures { Finds result (view_names (L.names names.now) (view shown.now)) }
{
    new_name_fault(alloc, names, shown)?;
    shown_names(alloc, names, shown)
}

fn shown_names<L: Lookup>(alloc: Global, names: &L, shown: &Value) -> Result<(), Stop>
    ensures { Finds result (shown_names (L.names names.now) (view shown.now)) }
{
    match shown_of(shown) {
        Some((kind, value)) => {
            let field = view_kind_name(kind);
            expression_names(alloc, names, field, class_of_view(kind), value)
        }
        None => Ok(()),
    }
}

#[derive(Drop)]
struct Edits<'n, L> {
    names: &'n L,
}

impl<L: Lookup> Finder for Edits<'_, L> {
    ghost use Rattle.sig_script.specs.Names.{edit_names};

    ghost finds = { λ edits _ edit. edit_names (L.names edits.names.now) edit };

    fn fault(&self, alloc: Global, _place: usize, edit: &Value) -> Result<(), Stop> {
        match operation_of(edit) {
            Some((operation, _)) => {
                let on = value_at(edit, "on").unwrap_or(&Value::Null);
                below(
                    alloc,
                    "on",
                    edited_fault(alloc, self.names, kind_for(operation), on),
                )
            }
            None => Ok(()),
        }
    }
}

/// The fault of a name that should stand for a source of a kind that is edited.
fn edited_fault<L: Lookup>(alloc: Global, names: &L, kind: Kind, value: &Value) -> Result<(), Stop>
    ensures { Finds result (known_fault (L.names names.now) (is_edited kind) (view value.now)) }
{
    match names.meaning(text_in(value)) {
        Some(meaning) => here_unless(alloc, is_edited(kind, meaning)),
        None => here_unless(alloc, false),
    }
}

/// Whether a name may stand where a source of a kind is edited.
fn is_edited(kind: Kind, meaning: Meaning) -> bool
    ensures { result ≡ is_edited kind meaning }
{
    match meaning {
        Meaning::Share(_) => false,
        other => is_source(kind, other),
    }
}

#[derive(Drop)]
struct Events<'n, 'v> {
    names: &'n NameTable<'v>,
}

impl Finder for Events<'_, '_> {
    ghost use Rattle.sig_script.specs.Names.{is_scheduled, known_fault};

    ghost finds = { λ events _ event. known_fault events.names.now is_scheduled event };

    fn fault(&self, alloc: Global, _place: usize, event: &Value) -> Result<(), Stop> {
        match self.names.meaning(text_in(event)) {
            Some(meaning) => here_unless(alloc, is_scheduled(meaning)),
            None => here_unless(alloc, false),
        }
    }
}

/// Whether a name may stand in a schedule.
fn is_scheduled(meaning: Meaning) -> bool
    ensures { result ≡ is_scheduled meaning }
{
    !matches!(meaning, Meaning::Source(_, _))
}
