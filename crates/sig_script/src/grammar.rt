ghost use Rattle.std.specs.Prelude.{◌≡◌, [], option_map, option_and_then};
ghost use Rattle.std.specs.Option.{option_map_or};
ghost use Rattle.serde_json.specs.Data.{null};
ghost use Rattle.serde_json.specs.Find.{as_object};
ghost use Rattle.serde_json.specs.View.{view, members_view};
ghost use Rattle.sig_script.specs.Building.{value_of};
ghost use Rattle.sig_script.specs.Forms.{field_seen, fields_seen, form_seen};
ghost use Rattle.sig_script.specs.Grammar.{field_at, form_in, form_of, map_form, one, signal_form, three, two, vector_form};
ghost use Rattle.sig_script.specs.Walks.{fields_of};

use crate::fields::{field, field_count};
use Part::{Bank, Both, Function, Name, Number, One, Test};
use serde_json::{Map, Value};
use sig_diff::Kind;

/// What a name stands for.
#[derive(Debug, Clone, Copy, PartialEq, Eq)]
pub enum Meaning {
    /// A source's number and kind.
    Source(usize, Kind),
    Share(usize),
    Writer(usize),
    View(usize),
}

/// The classes of expression.
#[derive(Debug, Clone, Copy, PartialEq, Eq)]
pub enum Class {
    Signal,
    Vector,
    Map,
}

/// The kinds of view.
#[derive(Debug, Clone, Copy, PartialEq, Eq)]
pub enum ViewKind {
    Signal,
    Vector,
    Map,
    Entries,
    Enumerate,
}

/// What a field of an expression holds.
#[derive(Debug, Clone, Copy, PartialEq, Eq)]
pub enum Part {
    /// The name of a source of a kind.
    Name(Kind),
    Function,
    Test,
    Number,
    One(Class),
    /// A list of 1 to 16 expressions.
    Bank(Class),
    /// A list of two.
    Both(Class),
}

/// The forms of expression.
#[derive(Debug, Clone, Copy, PartialEq, Eq)]
pub enum Node {
    Cell,
    MapSignal,
    Dedupe,
    Switch,
    Len,
    Sum,
    Key,
    Vector,
    MapVector,
    Filter,
    FilterBy,
    MapBy,
    Sorted,
    Concat,
    Flatten,
    Pick,
    Keys,
    Values,
    Map,
    MapValue,
}

/// The operations of an edit.
#[derive(Debug, Clone, Copy, PartialEq, Eq)]
pub enum Operation {
    Replace,
    Insert,
    Update,
    Remove,
    Move,
    Push,
    Pop,
    Clear,
    Set,
    SetNeq,
    Add,
    Put,
    Delete,
    Load,
    Wipe,
}

/// A field of an expression: its name, what it should hold, and its value.
#[derive(Clone, Copy)]
pub struct Field<'v> {
    pub name: &'static str,
    pub part: Part,
    pub value: &'v Value,
}

/// An expression's form, with its fields in the order in which they are walked.
#[derive(Clone, Copy)]
pub struct Form<'v> {
    pub node: Node,
    pub fields: Fields<'v>,
}

#[derive(Clone, Copy)]
pub enum Fields<'v> {
    One(Field<'v>),
    Two(Field<'v>, Field<'v>),
    Three(Field<'v>, Field<'v>, Field<'v>),
}

impl<'v> Fields<'v> {
    /// The values of the first, the second and the third field, and another value for each that isn't
    /// there.
    pub fn values(&self, absent: &'v Value) -> (&'v Value, &'v Value, &'v Value)
        requires { view absent.now ≡ null }
        ensures first { view result.0.now ≡ value_of (fields_seen self.now) 0 }
        ensures second { view result.1.now ≡ value_of (fields_seen self.now) 1 }
        ensures third { view result.2.now ≡ value_of (fields_seen self.now) 2 }
    {
        match self {
            Fields::One(first) => (first.value, absent, absent),
            Fields::Two(first, second) => (first.value, second.value, absent),
            Fields::Three(first, second, third) => (first.value, second.value, third.value),
        }
    }
}

/// A field that is asked: its name, and what it should hold.
type Asked = (&'static str, Part);

/// The form of an expression of a class, or none where the value is no expression of it.
pub fn form_of(class: Class, value: &Value) -> Option<Form<'_>>
    ensures { option_map form_seen result ≡ form_of class (view value.now) }
{
    form_in(class, value.as_object()?)
}

/// The fields of an expression, if the value is one.
pub fn fields_of(class: Class, value: &Value) -> Option<Fields<'_>>
    ensures { option_map_or fields_seen result [] ≡ fields_of class (view value.now) }
{
    Some(form_of(class, value)?.fields)
}

fn form_in(class: Class, fields: &Map<String, Value>) -> Option<Form<'_>>
    ensures { option_map form_seen result ≡ form_in class (members_view fields.now.entries) }
{
    match class {
        Class::Signal => signal_form(fields),
        Class::Vector => vector_form(fields),
        Class::Map => map_form(fields),
    }
}

fn signal_form(fields: &Map<String, Value>) -> Option<Form<'_>>
    ensures { option_map form_seen result ≡ signal_form (members_view fields.now.entries) }
{
    one(fields, Node::Cell, ("cell", Name(Kind::Cell)))
        .or_else(|| two(
            fields,
            Node::MapSignal,
            ("map", Function),
            ("of", One(Class::Signal)),
        ))
        .or_else(|| one(fields, Node::Dedupe, ("dedupe", One(Class::Signal))))
        .or_else(|| two(
            fields,
            Node::Switch,
            ("switch", One(Class::Signal)),
            ("bank", Bank(Class::Signal)),
        ))
        .or_else(|| one(fields, Node::Len, ("len", One(Class::Vector))))
        .or_else(|| one(fields, Node::Sum, ("sum", One(Class::Vector))))
        .or_else(|| three(
            fields,
            Node::Key,
            ("key", Number),
            ("default", Number),
            ("of", One(Class::Map)),
        ))
}

fn vector_form(fields: &Map<String, Value>) -> Option<Form<'_>>
    ensures { option_map form_seen result ≡ vector_form (members_view fields.now.entries) }
{
    one(fields, Node::Vector, ("vector", Name(Kind::Vector)))
        .or_else(|| two(
            fields,
            Node::MapVector,
            ("map", Function),
            ("of", One(Class::Vector)),
        ))
        .or_else(|| two(
            fields,
            Node::Filter,
            ("filter", Test),
            ("of", One(Class::Vector)),
        ))
        .or_else(|| two(
            fields,
            Node::FilterBy,
            ("of", One(Class::Vector)),
            ("filter_by", Bank(Class::Signal)),
        ))
        .or_else(|| two(
            fields,
            Node::MapBy,
            ("of", One(Class::Vector)),
            ("map_by", Bank(Class::Signal)),
        ))
        .or_else(|| two(
            fields,
            Node::Sorted,
            ("sorted", Function),
            ("of", One(Class::Vector)),
        ))
        .or_else(|| one(fields, Node::Concat, ("concat", Both(Class::Vector))))
        .or_else(|| two(
            fields,
            Node::Flatten,
            ("flatten", One(Class::Vector)),
            ("bank", Bank(Class::Vector)),
        ))
        .or_else(|| two(
            fields,
            Node::Pick,
            ("pick", One(Class::Signal)),
            ("bank", Bank(Class::Vector)),
        ))
        .or_else(|| one(fields, Node::Keys, ("keys", One(Class::Map))))
        .or_else(|| one(fields, Node::Values, ("values", One(Class::Map))))
}

fn map_form(fields: &Map<String, Value>) -> Option<Form<'_>>
    ensures { option_map form_seen result ≡ map_form (members_view fields.now.entries) }
{
    one(fields, Node::Map, ("map", Name(Kind::Map))).or_else(|| two(
        fields,
        Node::MapValue,
        ("map_value", Function),
        ("of", One(Class::Map)),
    ))
}

/// The form of an object that has one field and no others.
fn one(fields: &Map<String, Value>, node: Node, first: Asked) -> Option<Form<'_>>
    ensures { option_map form_seen result ≡ one (members_view fields.now.entries) node
        first.entry.0.now first.entry.1 }
{
    if field_count(fields) != 1 {
        return None;
    }
    let fields = Fields::One(field_at(fields, first)?);
    Some(Form { node, fields })
}

/// The form of an object that has two fields and no others.
fn two(fields: &Map<String, Value>, node: Node, first: Asked, second: Asked) -> Option<Form<'_>>
    ensures { option_map form_seen result ≡ two (members_view fields.now.entries) node
        first.entry.0.now first.entry.1 second.entry.0.now second.entry.1 }
{
    if field_count(fields) != 2 {
        return None;
    }
    let fields = Fields::Two(field_at(fields, first)?, field_at(fields, second)?);
    Some(Form { node, fields })
}

/// The form of an object that has three fields and no others.
fn three(
    fields: &Map<String, Value>,
    node: Node,
    first: Asked,
    second: Asked,
    third: Asked,
) -> Option<Form<'_>>
    ensures { option_map form_seen result ≡ three (members_view fields.now.entries) node
        first.entry.0.now first.entry.1 second.entry.0.now second.entry.1
        third.entry.0.now third.entry.1 }
{
    if field_count(fields) != 3 {
        return None;
    }
    let first = field_at(fields, first)?;
    let second = field_at(fields, second)?;
    let third = field_at(fields, third)?;
    let fields = Fields::Three(first, second, third);
    Some(Form { node, fields })
}

fn field_at(fields: &Map<String, Value>, asked: Asked) -> Option<Field<'_>>
    ensures { option_map field_seen result
        ≡ field_at (members_view fields.now.entries) asked.entry.0.now asked.entry.1 }
{
    let (name, part) = asked;
    let value = field(fields, name)?;
    Some(Field { name, part, value })
}
