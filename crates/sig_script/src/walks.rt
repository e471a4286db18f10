ghost use Rattle.std.specs.Prelude.{◌≡◌, ◌+◌, ◌<◌, ◌^◌};
ghost use Rattle.serde_json.specs.View.{view, items_view};
ghost use Rattle.sig_script.specs.Finding.{Finds};
ghost use Rattle.sig_script.specs.Forms.{field_seen, fields_seen};
ghost use Rattle.sig_script.specs.Paths.{below, first_in};
ghost use Rattle.sig_script.specs.Walks.{expression_fault, fields_fault, list_fault, part_fault, walk_fault};

use crate::fields::items_in;
use crate::grammar::{Class, Field, Fields, Part, fields_of};
use crate::paths::{Stop, below, below_place};
use serde_json::Value;
use sig_diff::Text;
use std::alloc::Global;

/// The most levels that a value is nested in.
pub const MOST_LEVELS: u32 = 127;

/// What is looked at on a walk.
pub trait Visitor {
    ghost use Rattle.sig_script.specs.Walks.{Visit};

    ghost visit: { Self → Visit };

    /// Whether the expression at a depth is refused.
    fn refuses(&self, depth: u32, class: Class, value: &Value) -> bool
        ensures { result ≡ (visit self.now).refuses depth class (view value.now) };

    /// Whether the list in a field is.
    fn refuses_list(&self, part: Part, value: &Value) -> bool
        ensures { result ≡ (visit self.now).refuses_list part (view value.now) };

    /// The fault of a name, a function, a test or a number.
    fn fault(&self, alloc: Global, part: Part, value: &Value) -> Result<(), Stop>
        ensures { Finds result ((visit self.now).fault part (view value.now)) };
}

/// The first fault of an expression.
#[tactic(auto, unfolding(crate::specs::Walks::expression_fault))]
pub fn expression_fault<V: Visitor>(
    alloc: Global,
    visitor: &V,
    class: Class,
    value: &Value,
) -> Result<(), Stop>
    ensures { Finds result (expression_fault (V.visit visitor.now) class (view value.now)) }
{
    walk(alloc, visitor, MOST_LEVELS, 1, class, value)
}

#[cycle(walks)]
#[tactic(auto, using(crate::proofs::Levels::walk_below))]
fn walk<V: Visitor>(
    alloc: Global,
    visitor: &V,
    levels: u32,
    depth: u32,
    class: Class,
    value: &Value,
) -> Result<(), Stop>
    requires { levels + depth < 2 ^ 32 }
    ensures { Finds result (walk_fault (V.visit visitor.now) levels depth class (view value.now)) }
{
    if levels == 0 {
        return Ok(());
    }
    if visitor.refuses(depth, class, value) {
        return Err(Stop::Fault(Text::new(alloc)));
    }
    match fields_of(class, value) {
        Some(fields) => walk_fields(alloc, visitor, levels - 1, depth + 1, &fields),
        None => Ok(()),
    }
}

#[cycle(walks)]
fn walk_fields<V: Visitor>(
    alloc: Global,
    visitor: &V,
    levels: u32,
    depth: u32,
    fields: &Fields<'_>,
) -> Result<(), Stop>
    requires { levels + depth < 2 ^ 32 }
    ensures { let visit = V.visit visitor.now in
        Finds result (fields_fault visit (walk_fault visit levels depth) (fields_seen fields.now)) }
{
    match fields {
        Fields::One(first) => walk_field(alloc, visitor, levels, depth, first),
        Fields::Two(first, second) => {
            walk_field(alloc, visitor, levels, depth, first)?;
            walk_field(alloc, visitor, levels, depth, second)
        }
        Fields::Three(first, second, third) => {
            walk_field(alloc, visitor, levels, depth, first)?;
            walk_field(alloc, visitor, levels, depth, second)?;
            walk_field(alloc, visitor, levels, depth, third)
        }
    }
}

#[cycle(walks)]
fn walk_field<V: Visitor>(
    alloc: Global,
    visitor: &V,
    levels: u32,
    depth: u32,
    field: &Field<'_>,
) -> Result<(), Stop>
    requires { levels + depth < 2 ^ 32 }
    ensures { let visit = V.visit visitor.now in let seen = field_seen field.now in
        Finds result (below seen.name (part_fault visit (walk_fault visit levels depth) seen.part seen.value)) }
{
    below(
        alloc,
        field.name,
        walk_part(alloc, visitor, levels, depth, field.part, field.value),
    )
}

#[cycle(walks)]
fn walk_part<V: Visitor>(
    alloc: Global,
    visitor: &V,
    levels: u32,
    depth: u32,
    part: Part,
    value: &Value,
) -> Result<(), Stop>
    requires { levels + depth < 2 ^ 32 }
    ensures { let visit = V.visit visitor.now in
        Finds result (part_fault visit (walk_fault visit levels depth) part (view value.now)) }
{
    match part {
        Part::One(class) => walk(alloc, visitor, levels, depth, class, value),
        Part::Bank(class) | Part::Both(class) => {
            if visitor.refuses_list(part, value) {
                return Err(Stop::Fault(Text::new(alloc)));
            }
            walk_list(alloc, visitor, levels, depth, class, items_in(value))
        }
        _ => visitor.fault(alloc, part, value),
    }
}

#[cycle(walks)]
#[tactic(auto, using(crate::proofs::Finding::finding))]
fn walk_list<V: Visitor>(
    alloc: Global,
    visitor: &V,
    levels: u32,
    depth: u32,
    class: Class,
    values: &[Value],
) -> Result<(), Stop>
    requires { levels + depth < 2 ^ 32 }
    ensures { let visit = V.visit visitor.now in
        Finds result (first_in (λ place. walk_fault visit levels depth class) (items_view values.now)) }
{
    'values: for (place, value) in values.iter().enumerate() {
        below_place(
            alloc,
            place,
            walk(alloc, visitor, levels, depth, class, value),
        )?;
    }
    Ok(())
}
