ghost use Rattle.std.specs.Prelude.{◌≡◌, IfOk, option_map};
ghost use Rattle.std.specs.Option.{option_map_or};
ghost use Rattle.serde_json.specs.Data.{null};
ghost use Rattle.serde_json.specs.Find.{get_item};
ghost use Rattle.serde_json.specs.View.{view, items_view};
ghost use Rattle.sig_script.specs.Building.{defs, function_from, index_in, item_in, number_in, plain_test_from, test_from};

use crate::fields::{index_of, items_in, number_of, value_at};
use serde_json::Value;
use sig_diff::{Items, NoMemory};
use sig_expr::{Fun, Pred, Test};
use std::alloc::Global;

/// A number, and 0 of another value.
pub fn number_in(value: &Value) -> i64
    ensures { result ≡ number_in (view value.now) }
{
    number_of(value).unwrap_or(0)
}

/// An index, and 0 of another value.
pub fn index_in(value: &Value) -> u32
    ensures { result ≡ index_in (view value.now) }
{
    index_of(value).unwrap_or(0)
}

/// The value at a place of a list, if it is a list that has one.
pub fn item_in(value: &Value, place: usize) -> Option<&Value>
    ensures { option_map_or (λ found. view found.now) result null ≡ item_in place (view value.now) }
{
    item_at(items_in(value), place)
}

#[tactic(auto, using(serde_json::proofs::Views::get_item_within, serde_json::proofs::Views::get_item_past))]
fn item_at(values: &[Value], place: usize) -> Option<&Value>
    ensures { option_map (λ found. view found.now) result ≡ get_item place (items_view values.now) }
{
    values.get(place)
}

/// A function of a script that is in its shape.
pub fn function_from(value: &Value) -> Fun
    ensures { result ≡ function_from (view value.now) }
{
    if let Some(addend) = value_at(value, "add") {
        Fun::Add(number_in(addend))
    } else if let Some(factor) = value_at(value, "mul") {
        Fun::Mul(number_in(factor))
    } else if let Some(divisor) = value_at(value, "rem") {
        Fun::Rem(number_in(divisor))
    } else {
        Fun::Neg
    }
}

/// A test of a script that is in its shape.
pub fn test_from(value: &Value) -> Pred
    ensures { result ≡ test_from (view value.now) }
{
    match value_at(value, "not") {
        Some(test) => Pred {
            flip: true,
            test: plain_test_from(test),
        },
        None => Pred {
            flip: false,
            test: plain_test_from(value),
        },
    }
}

/// A test that isn't turned round.
fn plain_test_from(value: &Value) -> Test
    ensures { result ≡ plain_test_from (view value.now) }
{
    if let Some(least) = value_at(value, "ge") {
        Test::Ge(number_in(least))
    } else if let Some(most) = value_at(value, "le") {
        Test::Le(number_in(most))
    } else if let Some(wanted) = value_at(value, "eq") {
        Test::Eq(number_in(wanted))
    } else {
        Test::Even
    }
}

/// What builds something of a list's value.
pub trait Builder {
    ghost use Rattle.serde_json.specs.Data.{Data};

    type Built: Drop;

    ghost builds: { Self → Data → Self.Built };

    fn build(&self, value: &Value) -> Result<Self::Built, NoMemory>
        ensures { IfOk result (λ built. built ≡ builds self.now (view value.now)) };
}

/// What is built of each value of a list.
pub fn defs<B: Builder>(
    alloc: Global,
    builder: &B,
    values: &[Value],
) -> Result<Items<B::Built>, NoMemory>
    ensures { IfOk result (λ list. list ≡ defs (B.builds builder.now) (items_view values.now)) }
{
    let mut list = Items::new(alloc);
    'values: for value in values {
        list.push(builder.build(value)?)?;
    }
    Ok(list)
}
