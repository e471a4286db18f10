ghost use Rattle.std.specs.Prelude.{◌≡◌, None, codes, nat_le};
ghost use Rattle.std.specs.Option.{option_or};
ghost use Rattle.serde_json.specs.View.{view, items_view};
ghost use Rattle.sig_script.specs.Fields.{list_at, members_in};
ghost use Rattle.sig_script.specs.Finding.{Finds};
ghost use Rattle.sig_script.specs.Limits.{content_limit, length_fault, limits_fault, list_limits, operation_limit, shown_limits};
ghost use Rattle.sig_script.specs.Paths.{below, first_in};
ghost use Rattle.sig_script.specs.Walks.{expression_leaves};

use crate::fields::{items_in, list_at, value_at};
use crate::grammar::{Class, Operation};
use crate::leaves::expression_leaves;
use crate::limits::{Limits, length_fault};
use crate::objects::{
    class_of_view, content_of, kind_name, operation_name, operation_of, shown_of, view_kind_name,
};
use crate::paths::{Finder, Stop, below, first_in, here_unless};
use crate::walks::expression_fault;
use serde_json::Value;
use sig_diff::Kind;
use std::alloc::Global;

const MOST_SOURCES: usize = 16;

const MOST_SHARES: usize = 8;

const MOST_WRITERS: usize = 16;

const MOST_VIEWS: usize = 16;

/// The most elements that a source starts with or that an edit brings, and the most edits of a writer.
const MOST_ITEMS: usize = 4096;

const MOST_EVENTS: usize = 65536;

const MOST_LEAVES: u64 = 64;

/// The first limit that a document passes: of a list, of an expression's depth, or of its leaves.
pub fn limits_fault(alloc: Global, document: &Value) -> Result<(), Stop>
    ensures { Finds result (limits_fault (members_in (view document.now))) }
{
    list_limits(alloc, document, "sources", 1, MOST_SOURCES, &Sources)?;
    list_limits(alloc, document, "shares", 0, MOST_SHARES, &Shares)?;
    list_limits(alloc, document, "writers", 0, MOST_WRITERS, &Writers)?;
    list_limits(alloc, document, "views", 1, MOST_VIEWS, &Views)?;
    schedule_limits(alloc, document)
}

/// The fault of the list in a field: of its length, or of one of its values.
fn list_limits<F: Finder>(
    alloc: Global,
    document: &Value,
    name: &str,
    least: usize,
    most: usize,
    finder: &F,
) -> Result<(), Stop>
    ensures { let values = list_at name.now (members_in (view document.now)) in
        Finds result (below name.now
        (option_or (length_fault least most values) (first_in (F.finds finder.now) values))) }
{
    below(
        alloc,
        name,
        items_limits(alloc, list_at(document, name), least, most, finder),
    )
}

/// The fault of a list: of its length, or of one of its values.
fn items_limits<F: Finder>(
    alloc: Global,
    values: &[Value],
    least: usize,
    most: usize,
    finder: &F,
) -> Result<(), Stop>
    ensures { let values = items_view values.now in
        Finds result (option_or (length_fault least most values) (first_in (F.finds finder.now) values)) }
{
    length_fault(alloc, values, least, most)?;
    first_in(alloc, finder, values)
}

fn schedule_limits(alloc: Global, document: &Value) -> Result<(), Stop>
    ensures { Finds result (list_limits (codes "schedule") 0 65536 (λ value. None)
        (members_in (view document.now))) }
{
    let schedule = list_at(document, "schedule");
    below(
        alloc,
        "schedule",
        length_fault(alloc, schedule, 0, MOST_EVENTS),
    )
}

/// The fault of an expression that is shown: of its leaves, of its depth, or of its banks.
fn shown_limits(alloc: Global, name: &str, class: Class, value: &Value) -> Result<(), Stop>
    ensures { Finds result (shown_limits name.now class (view value.now)) }
{
    here_unless(alloc, has_few_leaves(class, value))?;
    below(alloc, name, expression_fault(alloc, &Limits, class, value))
}

fn has_few_leaves(class: Class, value: &Value) -> bool
    ensures { result ≡ nat_le (expression_leaves class (view value.now)) 64 }
{
    expression_leaves(class, value) <= MOST_LEAVES
}

struct Sources;

impl Finder for Sources {
    ghost use Rattle.sig_script.specs.Limits.{source_limits};

    ghost finds = { λ _ _ source. source_limits source };

    fn fault(&self, alloc: Global, _place: usize, source: &Value) -> Result<(), Stop> {
        match content_of(source) {
            Some((kind, value)) => below(alloc, kind_name(kind), content_limit(alloc, kind, value)),
            None => Ok(()),
        }
    }
}

fn content_limit(alloc: Global, kind: Kind, value: &Value) -> Result<(), Stop>
    ensures { Finds result (content_limit kind (view value.now)) }
{
    match kind {
        Kind::Cell => Ok(()),
        Kind::Vector | Kind::Map => length_fault(alloc, items_in(value), 0, MOST_ITEMS),
    }
}

struct Shares;

impl Finder for Shares {
    ghost use Rattle.sig_script.specs.Limits.{share_limits};

    ghost finds = { λ _ _ share. share_limits share };

    fn fault(&self, alloc: Global, _place: usize, share: &Value) -> Result<(), Stop> {
        let signal = value_at(share, "signal").unwrap_or(&Value::Null);
        shown_limits(alloc, "signal", Class::Signal, signal)
    }
}

struct Writers;

impl Finder for Writers {
    ghost use Rattle.sig_script.specs.Limits.{writer_limits};

    ghost finds = { λ _ _ writer. writer_limits writer };

    fn fault(&self, alloc: Global, _place: usize, writer: &Value) -> Result<(), Stop> {
        list_limits(alloc, writer, "edits", 0, MOST_ITEMS, &Edits)
    }
}

struct Edits;

impl Finder for Edits {
    ghost use Rattle.sig_script.specs.Limits.{edit_limits};

    ghost finds = { λ _ _ edit. edit_limits edit };

    fn fault(&self, alloc: Global, _place: usize, edit: &Value) -> Result<(), Stop> {
        match operation_of(edit) {
            Some((operation, value)) => below(
                alloc,
                operation_name(operation),
                operation_limit(alloc, operation, value),
            ),
            None => Ok(()),
        }
    }
}

fn operation_limit(alloc: Global, operation: Operation, value: &Value) -> Result<(), Stop>
    ensures { Finds result (operation_limit operation (view value.now)) }
{
    match operation {
        Operation::Replace | Operation::Load => {
            length_fault(alloc, items_in(value), 0, MOST_ITEMS)
        }
        _ => Ok(()),
    }
}

struct Views;

impl Finder for Views {
    ghost use Rattle.sig_script.specs.Limits.{view_limits};

    ghost finds = { λ _ _ shown. view_limits shown };

    fn fault(&self, alloc: Global, _place: usize, shown: &Value) -> Result<(), Stop> {
        match shown_of(shown) {
            Some((kind, value)) => {
                shown_limits(alloc, view_kind_name(kind), class_of_view(kind), value)
            }
            None => Ok(()),
        }
    }
}
