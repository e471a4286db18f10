ghost use Rattle.std.specs.Prelude.{◌≡◌};
ghost use Rattle.serde_json.specs.View.{items_view};
ghost use Rattle.sig_script.specs.Finding.{Finds};
ghost use Rattle.sig_script.specs.Limits.{is_within, length_fault};

use crate::fields::items_in;
use crate::grammar::{Class, Part};
use crate::paths::{Stop, here_unless};
use crate::walks::Visitor;
use serde_json::Value;
use std::alloc::Global;

/// The most expressions within one another.
const MOST_DEPTH: u32 = 16;

/// The most members of a bank.
const MOST_MEMBERS: usize = 16;

/// How deep expressions are, and how long their banks.
pub struct Limits;

impl Visitor for Limits {
    ghost use Rattle.sig_script.specs.Limits.{limits};

    ghost visit = { λ _. limits };

    fn refuses(&self, depth: u32, _class: Class, _value: &Value) -> bool {
        depth > MOST_DEPTH
    }

    fn refuses_list(&self, part: Part, value: &Value) -> bool {
        match part {
            Part::Bank(_) => !is_within(items_in(value), 1, MOST_MEMBERS),
            _ => false,
        }
    }

    fn fault(&self, _alloc: Global, _part: Part, _value: &Value) -> Result<(), Stop> {
        Ok(())
    }
}

/// Whether a list has at least and at most so many values.
#[tactic(auto, using(crate::proofs::Counts::item_count_seen))]
fn is_within(values: &[Value], least: usize, most: usize) -> bool
    ensures { result ≡ is_within least most (items_view values.now) }
{
    least <= values.len() && values.len() <= most
}

/// The fault of a list that is too short or too long.
pub fn length_fault(alloc: Global, values: &[Value], least: usize, most: usize) -> Result<(), Stop>
    ensures { Finds result (length_fault least most (items_view values.now)) }
{
    here_unless(alloc, is_within(values, least, most))
}
