ghost use Rattle.std.specs.Prelude.{◌≡◌, [], None, Some, IfOk, IfErr, codes};
ghost use Rattle.std.specs.Option.{option_map_or};
ghost use Rattle.serde_json.specs.Find.{as_array, as_object};
ghost use Rattle.serde_json.specs.View.{view, items_view, members_view};
ghost use Rattle.sig_script.specs.Finding.{Finds, Stops};
ghost use Rattle.sig_script.specs.Paths.{first_in, in_field};
ghost use Rattle.sig_script.specs.Shapes.{content_fault, document_in, edit_in, entries_fault, entries_from, entry_fault, expression_shape, has_fields, key_of, name_fault, operation_fault, pair_fault, pair_in, present, rises, share_in, shape_fault, source_in, version_fault, view_in, writer_in, yes_fault};

use crate::fields::{field, field_count, index_of, list_of, number_of};
use crate::grammar::{Class, Operation};
use crate::objects::{
    class_of_view, content_field, kind_name, operation_field, operation_name, view_field,
    view_kind_name,
};
use crate::paths::{Finder, Stop, below, below_place, first_in, here_unless};
use crate::shapes::{Shapes, has, name_fault, number_fault, number_in};
use crate::walks::expression_fault;
use serde_json::{Map, Value};
use sig_diff::{Kind, Text};
use std::alloc::Global;

/// The first fault of shape of a document: a value that isn't of the kind that is asked, or an object with
/// other fields.
pub fn shape_fault(alloc: Global, document: &Value) -> Result<(), Stop>
    ensures { Finds result (shape_fault (view document.now)) }
{
    document_in(alloc, fields_of(alloc, document)?)
}

/// The fields of a value, or the fault that it is no object.
fn fields_of<'v>(alloc: Global, value: &'v Value) -> Result<&'v Map<String, Value>, Stop>
    ensures ok { IfOk result (λ fields. as_object (view value.now) ≡ Some (members_view fields.now.entries)) }
    ensures err { IfErr result (λ stop. (as_object (view value.now) ≡ None) × Stops stop (Some [])) }
{
    value
        .as_object()
        .ok_or_else(|| Stop::Fault(Text::new(alloc)))
}

fn document_in(alloc: Global, fields: &Map<String, Value>) -> Result<(), Stop>
    ensures { Finds result (document_in (members_view fields.now.entries)) }
{
    if !has_fields(fields) {
        return here_unless(alloc, false);
    }
    version_in(alloc, fields)?;
    list_in(alloc, fields, "sources", &Sources)?;
    list_in(alloc, fields, "shares", &Shares)?;
    list_in(alloc, fields, "writers", &Writers)?;
    list_in(alloc, fields, "views", &Views)?;
    list_in(alloc, fields, "schedule", &Names)
}

/// Whether a document has the four fields that it must have, and no others but `shares` and `schedule`.
fn has_fields(fields: &Map<String, Value>) -> bool
    ensures { result ≡ has_fields (members_view fields.now.entries) }
{
    has(fields, "version")
        && has(fields, "sources")
        && has(fields, "writers")
        && has(fields, "views")
        && field_count(fields) == 4 + present(fields, "shares") + present(fields, "schedule")
}

/// 1 where there is a field of this name, and else 0.
fn present(fields: &Map<String, Value>, name: &str) -> usize
    ensures { result ≡ present name.now (members_view fields.now.entries) }
{
    usize::from(has(fields, name))
}

fn version_in(alloc: Global, fields: &Map<String, Value>) -> Result<(), Stop>
    ensures { Finds result (in_field (codes "version") version_fault (members_view fields.now.entries)) }
{
    match field(fields, "version") {
        Some(version) => below(alloc, "version", version_fault(alloc, version)),
        None => Ok(()),
    }
}

fn version_fault(alloc: Global, version: &Value) -> Result<(), Stop>
    ensures { Finds result (version_fault (view version.now)) }
{
    here_unless(alloc, number_of(version) == Some(1))
}

/// The fault in a field that should hold a list of what a finder looks at.
fn list_in<F: Finder>(
    alloc: Global,
    fields: &Map<String, Value>,
    name: &str,
    finder: &F,
) -> Result<(), Stop>
    ensures { Finds result (in_field name.now
        (λ value. option_map_or (first_in (F.finds finder.now)) (as_array value) (Some []))
        (members_view fields.now.entries)) }
{
    match field(fields, name) {
        Some(value) => below(alloc, name, list_fault(alloc, finder, value)),
        None => Ok(()),
    }
}

/// The fault of what should be a list of what a finder looks at.
fn list_fault<F: Finder>(alloc: Global, finder: &F, value: &Value) -> Result<(), Stop>
    ensures { Finds result
        (option_map_or (first_in (F.finds finder.now)) (as_array (view value.now)) (Some [])) }
{
    match list_of(value) {
        Some(values) => first_in(alloc, finder, values),
        None => here_unless(alloc, false),
    }
}

struct Numbers;

impl Finder for Numbers {
    ghost use Rattle.sig_script.specs.Shapes.{number_fault};

    ghost finds = { λ _ _ value. number_fault value };

    fn fault(&self, alloc: Global, _place: usize, value: &Value) -> Result<(), Stop> {
        number_fault(alloc, value)
    }
}

struct Indices;

impl Finder for Indices {
    ghost use Rattle.sig_script.specs.Shapes.{index_fault};

    ghost finds = { λ _ _ value. index_fault value };

    fn fault(&self, alloc: Global, _place: usize, value: &Value) -> Result<(), Stop> {
        here_unless(alloc, index_of(value).is_some())
    }
}

struct Names;

impl Finder for Names {
    ghost use Rattle.sig_script.specs.Shapes.{name_fault};

    ghost finds = { λ _ _ value. name_fault value };

    fn fault(&self, alloc: Global, _place: usize, value: &Value) -> Result<(), Stop> {
        name_fault(alloc, value)
    }
}

struct Sources;

impl Finder for Sources {
    ghost use Rattle.sig_script.specs.Shapes.{object_fault, source_in};

    ghost finds = { λ _ _ value. object_fault source_in value };

    fn fault(&self, alloc: Global, _place: usize, value: &Value) -> Result<(), Stop> {
        source_in(alloc, fields_of(alloc, value)?)
    }
}

struct Shares;

impl Finder for Shares {
    ghost use Rattle.sig_script.specs.Shapes.{object_fault, share_in};

    ghost finds = { λ _ _ value. object_fault share_in value };

    fn fault(&self, alloc: Global, _place: usize, value: &Value) -> Result<(), Stop> {
        share_in(alloc, fields_of(alloc, value)?)
    }
}

struct Writers;

impl Finder for Writers {
    ghost use Rattle.sig_script.specs.Shapes.{object_fault, writer_in};

    ghost finds = { λ _ _ value. object_fault writer_in value };

    fn fault(&self, alloc: Global, _place: usize, value: &Value) -> Result<(), Stop> {
        writer_in(alloc, fields_of(alloc, value)?)
    }
}

struct Edits;

impl Finder for Edits {
    ghost use Rattle.sig_script.specs.Shapes.{edit_shape};

    ghost finds = { λ _ _ value. edit_shape value };

    fn fault(&self, alloc: Global, _place: usize, value: &Value) -> Result<(), Stop> {
        edit_in(alloc, fields_of(alloc, value)?)
    }
}

struct Views;

impl Finder for Views {
    ghost use Rattle.sig_script.specs.Shapes.{object_fault, view_in};

    ghost finds = { λ _ _ value. object_fault view_in value };

    fn fault(&self, alloc: Global, _place: usize, value: &Value) -> Result<(), Stop> {
        view_in(alloc, fields_of(alloc, value)?)
    }
}

/// The fault in a field that should hold a name.
fn name_in(alloc: Global, fields: &Map<String, Value>, name: &str) -> Result<(), Stop>
    ensures { Finds result (in_field name.now name_fault (members_view fields.now.entries)) }
{
    match field(fields, name) {
        Some(value) => below(alloc, name, name_fault(alloc, value)),
        None => Ok(()),
    }
}

fn source_in(alloc: Global, fields: &Map<String, Value>) -> Result<(), Stop>
    ensures { Finds result (source_in (members_view fields.now.entries)) }
{
    if field_count(fields) != 2 || !has(fields, "name") {
        return here_unless(alloc, false);
    }
    match content_field(fields) {
        Some((kind, value)) => {
            name_in(alloc, fields, "name")?;
            below(alloc, kind_name(kind), content_fault(alloc, kind, value))
        }
        None => here_unless(alloc, false),
    }
}

fn content_fault(alloc: Global, kind: Kind, value: &Value) -> Result<(), Stop>
    ensures { Finds result (content_fault kind (view value.now)) }
{
    match kind {
        Kind::Cell => number_fault(alloc, value),
        Kind::Vector => list_fault(alloc, &Numbers, value),
        Kind::Map => entries_fault(alloc, value),
    }
}

fn share_in(alloc: Global, fields: &Map<String, Value>) -> Result<(), Stop>
    ensures { Finds result (share_in (members_view fields.now.entries)) }
{
    let has_all = has(fields, "name") && has(fields, "start") && has(fields, "signal");
    if field_count(fields) != 3 || !has_all {
        return here_unless(alloc, false);
    }
    name_in(alloc, fields, "name")?;
    number_in(alloc, fields, "start")?;
    signal_in(alloc, fields)
}

fn signal_in(alloc: Global, fields: &Map<String, Value>) -> Result<(), Stop>
    ensures { Finds result (in_field (codes "signal") (expression_shape Class.Signal)
        (members_view fields.now.entries)) }
{
    match field(fields, "signal") {
        Some(signal) => below(
            alloc,
            "signal",
            expression_fault(alloc, &Shapes, Class::Signal, signal),
        ),
        None => Ok(()),
    }
}

fn writer_in(alloc: Global, fields: &Map<String, Value>) -> Result<(), Stop>
    ensures { Finds result (writer_in (members_view fields.now.entries)) }
{
    if field_count(fields) != 2 || !has(fields, "name") || !has(fields, "edits") {
        return here_unless(alloc, false);
    }
    name_in(alloc, fields, "name")?;
    list_in(alloc, fields, "edits", &Edits)
}

fn edit_in(alloc: Global, fields: &Map<String, Value>) -> Result<(), Stop>
    ensures { Finds result (edit_in (members_view fields.now.entries)) }
{
    if field_count(fields) != 2 || !has(fields, "on") {
        return here_unless(alloc, false);
    }
    match operation_field(fields) {
        Some((operation, value)) => {
            name_in(alloc, fields, "on")?;
            below(
                alloc,
                operation_name(operation),
                operation_fault(alloc, operation, value),
            )
        }
        None => here_unless(alloc, false),
    }
}

fn operation_fault(alloc: Global, operation: Operation, value: &Value) -> Result<(), Stop>
    ensures { Finds result (operation_fault operation (view value.now)) }
{
    match operation {
        Operation::Replace => list_fault(alloc, &Numbers, value),
        Operation::Insert | Operation::Update => pair_fault(alloc, &Indices, &Numbers, value),
        Operation::Remove => Indices.fault(alloc, 0, value),
        Operation::Move => pair_fault(alloc, &Indices, &Indices, value),
        Operation::Pop | Operation::Clear | Operation::Wipe => yes_fault(alloc, value),
        Operation::Put => pair_fault(alloc, &Numbers, &Numbers, value),
        Operation::Load => entries_fault(alloc, value),
        Operation::Push | Operation::Set | Operation::SetNeq | Operation::Add | Operation::Delete =>
            number_fault(alloc, value),
    }
}

/// The fault of the value that stands where an operation needs none.
fn yes_fault(alloc: Global, value: &Value) -> Result<(), Stop>
    ensures { Finds result (yes_fault (view value.now)) }
{
    here_unless(alloc, value.as_bool().unwrap_or(false))
}

/// The fault of what should be a list of two values.
fn pair_fault<A: Finder, B: Finder>(
    alloc: Global,
    first: &A,
    second: &B,
    value: &Value,
) -> Result<(), Stop>
    ensures { Finds result (pair_fault (A.finds first.now 0) (B.finds second.now 1) (view value.now)) }
{
    match list_of(value) {
        Some(values) => pair_in(alloc, first, second, values),
        None => here_unless(alloc, false),
    }
}

#[tactic(auto, using(crate::proofs::Counts::pair_in_none))]
fn pair_in<A: Finder, B: Finder>(
    alloc: Global,
    first: &A,
    second: &B,
    values: &[Value],
) -> Result<(), Stop>
    ensures { Finds result (pair_in (A.finds first.now 0) (B.finds second.now 1) (items_view values.now)) }
{
    match values {
        [key, value] => {
            below(alloc, "0", first.fault(alloc, 0, key))?;
            below(alloc, "1", second.fault(alloc, 1, value))
        }
        _ => here_unless(alloc, false),
    }
}

/// The fault of what should be a list of pairs with rising keys.
fn entries_fault(alloc: Global, value: &Value) -> Result<(), Stop>
    ensures { Finds result (entries_fault (view value.now)) }
{
    match list_of(value) {
        Some(values) => entries_in(alloc, values),
        None => here_unless(alloc, false),
    }
}

#[tactic(auto, using(crate::proofs::Rising::rising))]
fn entries_in(alloc: Global, values: &[Value]) -> Result<(), Stop>
    ensures { Finds result (entries_from None 0 (items_view values.now)) }
{
    let mut last = None;
    'values: for (place, value) in values.iter().enumerate() {
        below_place(alloc, place, entry_fault(alloc, last, value))?;
        last = key_of(value);
    }
    Ok(())
}

/// The fault of what should be a pair with a key above the last one.
fn entry_fault(alloc: Global, last: Option<i64>, value: &Value) -> Result<(), Stop>
    ensures { Finds result (entry_fault last (view value.now)) }
{
    if rises(last, key_of(value)) {
        pair_fault(alloc, &Numbers, &Numbers, value)
    } else {
        here_unless(alloc, false)
    }
}

/// The key of a pair, where it is a number.
fn key_of(value: &Value) -> Option<i64>
    ensures { result ≡ key_of (view value.now) }
{
    number_of(list_of(value)?.first()?)
}

/// Whether a key is above the last one. What is no number is refused as such.
fn rises(last: Option<i64>, key: Option<i64>) -> bool
    ensures { result ≡ rises last key }
{
    match (last, key) {
        (Some(last), Some(key)) => last < key,
        _ => true,
    }
}

fn view_in(alloc: Global, fields: &Map<String, Value>) -> Result<(), Stop>
    ensures { Finds result (view_in (members_view fields.now.entries)) }
{
    if field_count(fields) != 2 || !has(fields, "name") {
        return here_unless(alloc, false);
    }
    match view_field(fields) {
        Some((kind, value)) => {
            name_in(alloc, fields, "name")?;
            below(
                alloc,
                view_kind_name(kind),
                expression_fault(alloc, &Shapes, class_of_view(kind), value),
            )
        }
        None => here_unless(alloc, false),
    }
}
