ghost use Rattle.std.specs.Prelude.{◌≡◌, ◌<◌, ◌+◌, List, Option, Some, false, None, length, slice_set, OnOk};
ghost use Rattle.sig_diff.specs.declared.contents.Content.{Content};
ghost use Rattle.sig_hist.specs.Ports.{PortState};
ghost use Rattle.sig_walk.specs.Fetching.{AreFetched, HasTried, content_entered, entries_entered, is_missing, items_entered};
ghost use Rattle.sig_hist.specs.Ways.{contents_at};
ghost use Rattle.sig_walk.specs.Walking.{CanWalk, HasGone, Progress, sources_in};

use crate::walk::Walk;
use sig_diff::{Content, Diffs, Entries, Items, MapDiff, MapDiffs, NoMemory, VecDiff};
use sig_hist::{Entering, Port};
use std::alloc::Global;

/// The content that has entered whole.
pub fn content_entered(entering: Entering) -> Content
    ensures { result ≡ content_entered entering }
{
    match entering {
        Entering::Nothing => Content::Cell(0),
        Entering::Value(value) => Content::Cell(value),
        Entering::Vector(diffs) => Content::Vector(items_entered(diffs)),
        Entering::Map(diffs) => Content::Map(entries_entered(diffs)),
    }
}

/// The list that has entered whole.
fn items_entered(diffs: Diffs<i64>) -> Items<i64>
    ensures { result ≡ items_entered diffs }
{
    let alloc = diffs.alloc();
    let mut diffs = diffs.into_vec();
    if diffs.len() != 1 {
        return Items::new(alloc);
    }
    match diffs.pop() {
        Some(VecDiff::Replace { values }) => values,
        _ => Items::new(alloc),
    }
}

/// The map that has entered whole.
fn entries_entered(diffs: MapDiffs<i64>) -> Entries<i64>
    ensures { result ≡ entries_entered diffs }
{
    let alloc = diffs.alloc();
    let mut diffs = diffs.into_vec();
    if diffs.len() != 1 {
        return Entries::new(alloc);
    }
    match diffs.pop() {
        Some(MapDiff::Replace { entries }) => entries,
        _ => Entries::new(alloc),
    }
}

/// Puts a content, or none, into a leaf's place.
fn put(contents: &mut [Option<Content>], leaf: usize, content: Option<Content>)
    requires { leaf < length contents.old }
    ensures { contents.new ≡ slice_set contents.old leaf content }
{
    contents[leaf] = content;
}

/// Whether there is a place for a leaf's content, and nothing in it.
fn is_missing(contents: &[Option<Content>], leaf: usize) -> bool
    ensures { result ≡ is_missing contents.now leaf }
{
    match contents.get(leaf) {
        Some(None) => true,
        _ => false,
    }
}

/// Fetches a leaf, where it is missing.
fn fetch_missing<P: Port>(
    port: &mut P,
    walk: &mut Walk,
    contents: &mut [Option<Content>],
    leaf: usize,
) -> Result<(), NoMemory>
    requires can { CanWalk (P.state port.old) walk.old }
    requires leaf { leaf < length walk.old.positions }
    requires place { leaf < length contents.old }
    ensures same { P.is_same port.old port.new }
    ensures gone { HasGone (P.state port.old) (P.state port.new) walk.old walk.new }
    ensures each { length contents.new ≡ length contents.old }
    ensures more { OnOk result ((s : PortState) (old : Progress) (before : List (Option Content))
        → HasTried s (P.state port.old) old walk.old before contents.old leaf → HasTried s (P.state port.new) old walk.new before contents.new (leaf + 1)) }
{
    if is_missing(contents, leaf) {
        let content = walk.fetch(port, leaf)?;
        put(contents, leaf, content);
    }
    Ok(())
}

/// Fetches each leaf that is missing, from left to right. A leaf whose source is found held stays missing.
pub fn fetch_all<P: Port>(
    port: &mut P,
    walk: &mut Walk,
    contents: &mut [Option<Content>],
) -> Result<(), NoMemory>
    requires can { CanWalk (P.state port.old) walk.old }
    requires held { walk.old.held ≡ None }
    requires each { length contents.old ≡ length walk.old.positions }
    requires fetched { AreFetched (contents_at (sources_in (P.state port.old) walk.old) walk.old.positions) (length contents.old) contents.old }
    ensures same { P.is_same port.old port.new }
    ensures gone { HasGone (P.state port.old) (P.state port.new) walk.old walk.new }
    ensures tried { OnOk result (HasTried (P.state port.old) (P.state port.new) walk.old walk.new contents.old contents.new (length contents.old)) }
{
    'leaves: for leaf in 0..contents.len() {
        fetch_missing(port, walk, contents, leaf)?;
    }
    Ok(())
}
