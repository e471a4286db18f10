ghost use Rattle.std.specs.Prelude.{◌≡◌, [], IfOk, OnOk};
ghost use Rattle.sig_diff.specs.Replaying.{AreLawful, replayed};
ghost use Rattle.sig_expr.specs.Leaves.{leaves};
ghost use Rattle.sig_expr.specs.Shapes.{view_tree};
ghost use Rattle.sig_rows.specs.SoundRows.{nothing_shown, replay_of, shown_after};
ghost use Rattle.sig_run.specs.Showing.{AreShowable, IsOver, IsShowable, contents_under, last_of};

use sig_diff::{Content, Diffs, Items, NoMemory, Tagged, TryCopy, apply};
use sig_expr::{Contents, Shown, View, eval_view, leaves};
use sig_report::SourceReport;
use sig_view::{Body, Rows};
use std::alloc::Global;

/// What a view shows at the end of a play: the view from scratch of its sources' last contents. Of a list's tags
/// these tell nothing, so a list with tags is what its rows show.
pub fn last_shown(
    alloc: Global,
    view: &View,
    rows: &Rows,
    sources: &[SourceReport],
) -> Result<Shown, NoMemory>
    requires { IsOver sources.now view.now rows.now }
    ensures { IfOk result (λ last. last ≡ replay_of (nothing_shown (view_tree view.now)) rows.now) }
{
    match view {
        View::Enumerate(_) => Ok(Shown::Tagged(elements_of(alloc, rows)?)),
        _ => eval_view(alloc, view, &contents_of(alloc, view, sources)?),
    }
}

/// The last content of each leaf of a view.
fn contents_of(alloc: Global, view: &View, sources: &[SourceReport]) -> Result<Contents, NoMemory>
    ensures { IfOk result (λ contents. contents ≡ contents_under sources.now (leaves (view_tree view.now))) }
{
    let labels = leaves(alloc, view)?;
    let mut contents = Contents::new(alloc);
    'labels: for label in labels.as_slice() {
        contents.push(last_of(sources, *label)?)?;
    }
    Ok(contents)
}

/// The last content of the source with this number.
fn last_of(sources: &[SourceReport], source: usize) -> Result<Content, NoMemory>
    ensures { IfOk result (λ last. last ≡ last_of sources.now source) }
{
    match sources.get(source) {
        Some(report) => report.last.copy(),
        None => Ok(Content::Cell(0)),
    }
}

/// The elements with their tags that rows show.
fn elements_of(alloc: Global, rows: &Rows) -> Result<Items<Tagged>, NoMemory>
    requires { AreShowable (Shown.Tagged []) rows.now }
    ensures { IfOk result (λ elements. Shown.Tagged elements ≡ replay_of (Shown.Tagged []) rows.now) }
{
    let mut elements = Items::new(alloc);
    'rows: for row in rows.as_slice() {
        show(&mut elements, &row.body)?;
    }
    Ok(elements)
}

/// Shows a row's body.
fn show(elements: &mut Items<Tagged>, body: &Body) -> Result<(), NoMemory>
    requires { IsShowable (Shown.Tagged elements.old) body.now }
    ensures { OnOk result (Shown.Tagged elements.new ≡ shown_after (Shown.Tagged elements.old) body.now) }
{
    match body {
        Body::Tagged(diffs) => apply_all(elements, diffs),
        _ => Ok(()),
    }
}

/// The list after differences of it.
fn apply_all<T: Copy + Eq>(items: &mut Items<T>, diffs: &Diffs<T>) -> Result<(), NoMemory>
    requires { AreLawful items.old diffs.now }
    ensures { OnOk result (items.new ≡ replayed items.old diffs.now) }
{
    'diffs: for diff in diffs.as_slice() {
        apply(items, diff)?;
    }
    Ok(())
}
