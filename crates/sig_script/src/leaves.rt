ghost use Rattle.std.specs.Prelude.{◌≡◌, ◌-◌, ◌^◌, min};
ghost use Rattle.serde_json.specs.View.{view, items_view};
ghost use Rattle.sig_script.specs.Forms.{field_seen, fields_seen};
ghost use Rattle.sig_script.specs.Walks.{expression_leaves, fields_leaves, leaf_count, leaves_in, part_leaves};

use crate::fields::items_in;
use crate::grammar::{Class, Field, Fields, Part, fields_of};
use crate::walks::MOST_LEVELS;
use serde_json::Value;

/// How many names of sources an expression has; 2^64 - 1 where it is that or more.
#[tactic(auto, unfolding(crate::specs::Walks::expression_leaves))]
pub fn expression_leaves(class: Class, value: &Value) -> u64
    ensures { result ≡ min (expression_leaves class (view value.now)) (2 ^ 64 - 1) }
{
    leaf_count(MOST_LEVELS, class, value)
}

#[cycle(leaves)]
#[tactic(auto, using(crate::proofs::Levels::leaves_below))]
fn leaf_count(levels: u32, class: Class, value: &Value) -> u64
    ensures { result ≡ min (leaf_count levels class (view value.now)) (2 ^ 64 - 1) }
{
    if levels == 0 {
        return 0;
    }
    match fields_of(class, value) {
        Some(fields) => fields_leaves(levels - 1, &fields),
        None => 0,
    }
}

#[cycle(leaves)]
fn fields_leaves(levels: u32, fields: &Fields<'_>) -> u64
    ensures { result ≡ min (fields_leaves (leaf_count levels) (fields_seen fields.now)) (2 ^ 64 - 1) }
{
    match fields {
        Fields::One(first) => field_leaves(levels, first),
        Fields::Two(first, second) => {
            field_leaves(levels, first).saturating_add(field_leaves(levels, second))
        }
        Fields::Three(first, second, third) => field_leaves(levels, first)
            .saturating_add(field_leaves(levels, second))
            .saturating_add(field_leaves(levels, third)),
    }
}

#[cycle(leaves)]
fn field_leaves(levels: u32, field: &Field<'_>) -> u64
    ensures { let seen = field_seen field.now in
        result ≡ min (part_leaves (leaf_count levels) seen.part seen.value) (2 ^ 64 - 1) }
{
    match field.part {
        Part::Name(_) => 1,
        Part::One(class) => leaf_count(levels, class, field.value),
        Part::Bank(class) | Part::Both(class) => list_leaves(levels, class, items_in(field.value)),
        Part::Function | Part::Test | Part::Number => 0,
    }
}

#[cycle(leaves)]
fn list_leaves(levels: u32, class: Class, values: &[Value]) -> u64
    ensures { result ≡ min (leaves_in (leaf_count levels) class (items_view values.now)) (2 ^ 64 - 1) }
{
    let mut count: u64 = 0;
    'values: for value in values {
        count = count.saturating_add(leaf_count(levels, class, value));
    }
    count
}
