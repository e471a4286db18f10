ghost use Rattle.std.specs.Prelude.{◌≡◌};
ghost use Rattle.serde_json.specs.View.{view, members_view};
ghost use Rattle.sig_script.specs.Finding.{Finds};
ghost use Rattle.sig_script.specs.Paths.{in_field};
ghost use Rattle.sig_script.specs.Shapes.{comparison_in, function_fault, function_in, has, is_no_list, is_text, name_fault, number_fault, plain_test_fault, positive_fault, test_fault};

use crate::fields::{field, field_count, is_name, list_of, number_of, only_field};
use crate::grammar::{Class, Part, form_of};
use crate::paths::{Stop, below, here_unless};
use crate::walks::Visitor;
use serde_json::{Map, Value};
use std::alloc::Global;

/// Whether values are of the kinds that are asked.
pub struct Shapes;

impl Visitor for Shapes {
    ghost use Rattle.sig_script.specs.Shapes.{shapes};

    ghost visit = { λ _. shapes };

    fn refuses(&self, _depth: u32, class: Class, value: &Value) -> bool {
        form_of(class, value).is_none()
    }

    fn refuses_list(&self, part: Part, value: &Value) -> bool {
        is_no_list(part, value)
    }

    fn fault(&self, alloc: Global, part: Part, value: &Value) -> Result<(), Stop> {
        match part {
            Part::Name(_) => name_fault(alloc, value),
            Part::Function => function_fault(alloc, value),
            Part::Test => test_fault(alloc, value),
            Part::Number => number_fault(alloc, value),
            _ => Ok(()),
        }
    }
}

/// Whether the value isn't a list, or isn't one of two where two are asked.
#[tactic(auto, using(crate::proofs::Counts::item_count_seen))]
fn is_no_list(part: Part, value: &Value) -> bool
    ensures { result ≡ is_no_list part (view value.now) }
{
    match (list_of(value), part) {
        (Some(values), Part::Both(_)) => values.len() != 2,
        (Some(_), _) => false,
        (None, _) => true,
    }
}

/// The fault of what should be a number.
pub fn number_fault(alloc: Global, value: &Value) -> Result<(), Stop>
    ensures { Finds result (number_fault (view value.now)) }
{
    here_unless(alloc, number_of(value).is_some())
}

/// The fault of what should be a number above 0.
fn positive_fault(alloc: Global, value: &Value) -> Result<(), Stop>
    ensures { Finds result (positive_fault (view value.now)) }
{
    here_unless(alloc, number_of(value).is_some_and(|number| number >= 1))
}

/// The fault of what should be a name.
pub fn name_fault(alloc: Global, value: &Value) -> Result<(), Stop>
    ensures { Finds result (name_fault (view value.now)) }
{
    match value.as_str() {
        Some(text) => here_unless(alloc, is_name(text.as_bytes())),
        None => here_unless(alloc, false),
    }
}

fn is_text(text: &str, value: &Value) -> bool
    ensures { result ≡ is_text text.now (view value.now) }
{
    match value.as_str() {
        Some(found) => text.as_bytes() == found.as_bytes(),
        None => false,
    }
}

/// Whether an object has a field.
pub fn has(fields: &Map<String, Value>, name: &str) -> bool
    ensures { result ≡ has name.now (members_view fields.now.entries) }
{
    field(fields, name).is_some()
}

/// The fault in a field that should hold a number.
pub fn number_in(alloc: Global, fields: &Map<String, Value>, name: &str) -> Result<(), Stop>
    ensures { Finds result (in_field name.now number_fault (members_view fields.now.entries)) }
{
    match field(fields, name) {
        Some(value) => below(alloc, name, number_fault(alloc, value)),
        None => Ok(()),
    }
}

/// The fault in a field that should hold a number above 0.
fn positive_in(alloc: Global, fields: &Map<String, Value>, name: &str) -> Result<(), Stop>
    ensures { Finds result (in_field name.now positive_fault (members_view fields.now.entries)) }
{
    match field(fields, name) {
        Some(value) => below(alloc, name, positive_fault(alloc, value)),
        None => Ok(()),
    }
}

fn function_fault(alloc: Global, value: &Value) -> Result<(), Stop>
    ensures { Finds result (function_fault (view value.now)) }
{
    if is_text("neg", value) {
        return Ok(());
    }
    match value.as_object() {
        Some(fields) => function_in(alloc, fields),
        None => here_unless(alloc, false),
    }
}

fn function_in(alloc: Global, fields: &Map<String, Value>) -> Result<(), Stop>
    ensures { Finds result (function_in (members_view fields.now.entries)) }
{
    let is_function = has(fields, "add") || has(fields, "mul") || has(fields, "rem");
    if field_count(fields) != 1 || !is_function {
        return here_unless(alloc, false);
    }
    number_in(alloc, fields, "add")?;
    number_in(alloc, fields, "mul")?;
    positive_in(alloc, fields, "rem")
}

fn test_fault(alloc: Global, value: &Value) -> Result<(), Stop>
    ensures { Finds result (test_fault (view value.now)) }
{
    match only_field(value, "not") {
        Some(test) => below(alloc, "not", plain_test_fault(alloc, test)),
        None => plain_test_fault(alloc, value),
    }
}

/// The fault of what should be a test that isn't turned round.
fn plain_test_fault(alloc: Global, value: &Value) -> Result<(), Stop>
    ensures { Finds result (plain_test_fault (view value.now)) }
{
    if is_text("even", value) {
        return Ok(());
    }
    match value.as_object() {
        Some(fields) => comparison_in(alloc, fields),
        None => here_unless(alloc, false),
    }
}

fn comparison_in(alloc: Global, fields: &Map<String, Value>) -> Result<(), Stop>
    ensures { Finds result (comparison_in (members_view fields.now.entries)) }
{
    let is_comparison = has(fields, "ge") || has(fields, "le") || has(fields, "eq");
    if field_count(fields) != 1 || !is_comparison {
        return here_unless(alloc, false);
    }
    number_in(alloc, fields, "ge")?;
    number_in(alloc, fields, "le")?;
    number_in(alloc, fields, "eq")
}
