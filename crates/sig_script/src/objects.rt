ghost use Rattle.std.specs.Prelude.{◌≡◌, option_map};
ghost use Rattle.serde_json.specs.Data.{Data};
ghost use Rattle.serde_json.specs.Find.{get_member};
ghost use Rattle.serde_json.specs.View.{view, members_view};
ghost use Rattle.sig_script.specs.Fields.{members_in};
ghost use Rattle.sig_script.specs.Grammar.{cell_field, class_of_view, content_field, end_field, kind_for, kind_name, map_field, operation_field, operation_name, view_field, view_kind_name};

use crate::fields::field;
use crate::grammar::{Class, Operation, ViewKind};
use serde_json::{Map, Value};
use sig_diff::Kind;

/// The field of a source that says what it starts with, beside its name.
pub fn content_field(fields: &Map<String, Value>) -> Option<(Kind, &Value)>
    ensures { option_map (λ found. (found.0, view found.1.now)) result
        ≡ content_field (members_view fields.now.entries) }
{
    choice(fields, "cell", Kind::Cell)
        .or_else(|| choice(fields, "vector", Kind::Vector))
        .or_else(|| choice(fields, "map", Kind::Map))
}

/// The field of a view that says what it shows, beside its name.
pub fn view_field(fields: &Map<String, Value>) -> Option<(ViewKind, &Value)>
    ensures { option_map (λ found. (found.0, view found.1.now)) result
        ≡ view_field (members_view fields.now.entries) }
{
    choice(fields, "signal", ViewKind::Signal)
        .or_else(|| choice(fields, "vector", ViewKind::Vector))
        .or_else(|| choice(fields, "map", ViewKind::Map))
        .or_else(|| choice(fields, "entries", ViewKind::Entries))
        .or_else(|| choice(fields, "enumerate", ViewKind::Enumerate))
}

/// The field of an edit that says what is done, beside the one that says on which source.
pub fn operation_field(fields: &Map<String, Value>) -> Option<(Operation, &Value)>
    ensures { option_map (λ found. (found.0, view found.1.now)) result
        ≡ operation_field (members_view fields.now.entries) }
{
    choice(fields, "replace", Operation::Replace)
        .or_else(|| choice(fields, "insert", Operation::Insert))
        .or_else(|| choice(fields, "update", Operation::Update))
        .or_else(|| choice(fields, "remove", Operation::Remove))
        .or_else(|| choice(fields, "move", Operation::Move))
        .or_else(|| end_field(fields))
}

/// The field of an edit at the end of a vector or of all of it, and of a cell or a map.
fn end_field(fields: &Map<String, Value>) -> Option<(Operation, &Value)>
    ensures { option_map (λ found. (found.0, view found.1.now)) result
        ≡ end_field (members_view fields.now.entries) }
{
    choice(fields, "push", Operation::Push)
        .or_else(|| choice(fields, "pop", Operation::Pop))
        .or_else(|| choice(fields, "clear", Operation::Clear))
        .or_else(|| cell_field(fields))
}

/// The field of an edit of a cell or a map.
fn cell_field(fields: &Map<String, Value>) -> Option<(Operation, &Value)>
    ensures { option_map (λ found. (found.0, view found.1.now)) result
        ≡ cell_field (members_view fields.now.entries) }
{
    choice(fields, "set", Operation::Set)
        .or_else(|| choice(fields, "set_neq", Operation::SetNeq))
        .or_else(|| choice(fields, "add", Operation::Add))
        .or_else(|| map_field(fields))
}

/// The field of an edit of a map.
fn map_field(fields: &Map<String, Value>) -> Option<(Operation, &Value)>
    ensures { option_map (λ found. (found.0, view found.1.now)) result
        ≡ map_field (members_view fields.now.entries) }
{
    choice(fields, "put", Operation::Put)
        .or_else(|| choice(fields, "delete", Operation::Delete))
        .or_else(|| choice(fields, "load", Operation::Load))
        .or_else(|| choice(fields, "wipe", Operation::Wipe))
}

/// What a source starts with, if the value says it.
pub fn content_of(source: &Value) -> Option<(Kind, &Value)>
    ensures { option_map (λ found. (found.0, view found.1.now)) result
        ≡ content_field (members_in (view source.now)) }
{
    content_field(source.as_object()?)
}

/// What a view shows, if the value says it.
pub fn shown_of(shown: &Value) -> Option<(ViewKind, &Value)>
    ensures { option_map (λ found. (found.0, view found.1.now)) result
        ≡ view_field (members_in (view shown.now)) }
{
    view_field(shown.as_object()?)
}

/// What an edit does, if the value says it.
pub fn operation_of(edit: &Value) -> Option<(Operation, &Value)>
    ensures { option_map (λ found. (found.0, view found.1.now)) result
        ≡ operation_field (members_in (view edit.now)) }
{
    operation_field(edit.as_object()?)
}

/// The value of a field beside what the field's name says.
fn choice<'v, T: Copy>(
    fields: &'v Map<String, Value>,
    name: &str,
    says: T,
) -> Option<(T, &'v Value)>
    ensures { option_map {U = T × Data} (λ found. (found.0, view found.1.now)) result
        ≡ option_map {U = T × Data} (λ value. (says, value)) (get_member name.now (members_view fields.now.entries)) }
{
    Some((says, field(fields, name)?))
}

/// The field that a source of a kind has beside its name.
pub fn kind_name(kind: Kind) -> &'static str
    ensures { result.now ≡ kind_name kind }
{
    match kind {
        Kind::Cell => "cell",
        Kind::Vector => "vector",
        Kind::Map => "map",
    }
}

/// The field that a view of a kind has beside its name.
pub fn view_kind_name(kind: ViewKind) -> &'static str
    ensures { result.now ≡ view_kind_name kind }
{
    match kind {
        ViewKind::Signal => "signal",
        ViewKind::Vector => "vector",
        ViewKind::Map => "map",
        ViewKind::Entries => "entries",
        ViewKind::Enumerate => "enumerate",
    }
}

/// The class of the expression that a view shows.
pub fn class_of_view(kind: ViewKind) -> Class
    ensures { result ≡ class_of_view kind }
{
    match kind {
        ViewKind::Signal => Class::Signal,
        ViewKind::Vector | ViewKind::Enumerate => Class::Vector,
        ViewKind::Map | ViewKind::Entries => Class::Map,
    }
}

/// The field that an edit of an operation has beside its source.
pub fn operation_name(operation: Operation) -> &'static str
    ensures { result.now ≡ operation_name operation }
{
    match operation {
        Operation::Replace => "replace",
        Operation::Insert => "insert",
        Operation::Update => "update",
        Operation::Remove => "remove",
        Operation::Move => "move",
        Operation::Push => "push",
        Operation::Pop => "pop",
        Operation::Clear => "clear",
        Operation::Set => "set",
        Operation::SetNeq => "set_neq",
        Operation::Add => "add",
        Operation::Put => "put",
        Operation::Delete => "delete",
        Operation::Load => "load",
        Operation::Wipe => "wipe",
    }
}

/// The kind of source that an operation is made on.
pub fn kind_for(operation: Operation) -> Kind
    ensures { result ≡ kind_for operation }
{
    match operation {
        Operation::Set | Operation::SetNeq | Operation::Add => Kind::Cell,
        Operation::Put | Operation::Delete | Operation::Load | Operation::Wipe => Kind::Map,
        _ => Kind::Vector,
    }
}
