//! For tests and examples: whether rows show, one after another, a view computed from scratch of what its sources held at their positions.
#![tactic(auto)]

ghost use Rattle.std.specs.Prelude.{◌≡◌, ◌≤◌, length, IfOk};
ghost use Rattle.sig_expr.specs.Leaves.{leaves};
ghost use Rattle.sig_expr.specs.Shapes.{view_tree};
ghost use Rattle.sig_hist.specs.Changes.{size_of};

use sig_diff::{Content, Diffs, Items, NoMemory, TryCopy, apply, is_lawful};
use sig_expr::{Contents, Shown, View, eval_view, leaves};
use sig_hist::{Edit, Kept, SourcePlan, SourceState, execute};
use sig_view::{Body, Row};
use std::alloc::Global;

/// Whether each row of a signal or of a list is lawful, shows the view at its positions, and the last one ends the view.
pub fn are_rows_right(
    alloc: Global,
    view: &View,
    plans: &[SourcePlan],
    sources: &[SourceState],
    rows: &[Row],
) -> Result<bool, NoMemory> {
    let mut shown = Shown::Vector(Items::new(alloc));
    'rows: for row in rows {
        if !follow(&mut shown, &row.body)?
            || !shows(alloc, view, plans, sources, row.at.as_slice(), &shown)?
        {
            return Ok(false);
        }
    }
    Ok(matches!(
        rows,
        [
            ..,
            Row {
                body: Body::Ended,
                ..
            }
        ]
    ))
}

/// Changes what is shown by a row's body, if that is lawful.
fn follow(shown: &mut Shown, body: &Body) -> Result<bool, NoMemory> {
    match body {
        Body::Signal(None) | Body::Ended => Ok(true),
        Body::Signal(Some(value)) => {
            *shown = Shown::Signal(*value);
            Ok(true)
        }
        Body::Vector(diffs) => follow_if_list(shown, diffs),
        _ => Ok(false),
    }
}

fn follow_if_list(shown: &mut Shown, diffs: &Diffs<i64>) -> Result<bool, NoMemory> {
    match shown {
        Shown::Vector(items) => follow_list(items, diffs),
        _ => Ok(false),
    }
}

fn follow_list(items: &mut Items<i64>, diffs: &Diffs<i64>) -> Result<bool, NoMemory> {
    'diffs: for diff in diffs.as_slice() {
        let len = items.len().min(u32::MAX as usize) as u32;
        if len as usize != items.len() || !is_lawful(diff, len) {
            return Ok(false);
        }
        apply(items, diff)?;
    }
    Ok(true)
}

/// Whether this is what the view shows from scratch of what its leaves' sources held at these positions.
fn shows(
    alloc: Global,
    view: &View,
    plans: &[SourcePlan],
    sources: &[SourceState],
    at: &[u32],
    shown: &Shown,
) -> Result<bool, NoMemory> {
    let leaves = leaves(alloc, view)?;
    let contents = contents_at(alloc, leaves.as_slice(), plans, sources, at)?;
    Ok(match (eval_view(alloc, view, &contents)?, shown) {
        (Shown::Signal(wanted), Shown::Signal(value)) => wanted == *value,
        (Shown::Vector(wanted), Shown::Vector(items)) => wanted.as_slice() == items.as_slice(),
        _ => false,
    })
}

/// What each leaf's source held at the leaf's position.
fn contents_at(
    alloc: Global,
    leaves: &[usize],
    plans: &[SourcePlan],
    sources: &[SourceState],
    at: &[u32],
) -> Result<Contents, NoMemory>
    ensures { IfOk result (λ contents. length contents ≡ length leaves.now) }
{
    let mut contents = Vec::with_capacity(alloc, leaves.len())?;
    'leaves: for (leaf, source) in leaves.iter().enumerate() {
        contents.push(
            match (plans.get(*source), sources.get(*source), at.get(leaf)) {
                (Some(plan), Some(source), Some(position)) => content_at(plan, source, *position)?,
                _ => Content::Cell(0),
            },
        )?;
    }
    Ok(Items::from_vec(contents))
}

/// What a source held after so many entries.
fn content_at(plan: &SourcePlan, source: &SourceState, position: u32) -> Result<Content, NoMemory> {
    let mut content = plan.start.copy()?;
    if size(&content) > plan.cap as usize {
        return Ok(content);
    }
    'entries: for place in 0..position.min(source.count()) {
        execute(&mut content, plan.cap, &source.entry(place).edit)?;
    }
    Ok(content)
}

fn size(content: &Content) -> usize
    ensures { result ≡ size_of content.now }
{
    match content {
        Content::Cell(_) => 1,
        Content::Vector(items) => items.len(),
        Content::Map(entries) => entries.len(),
    }
}
