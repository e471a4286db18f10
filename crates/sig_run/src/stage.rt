ghost use Rattle.std.specs.Prelude.{◌≡◌, ◌+◌, ◌<◌, ◌^◌, ◌==◌, ◌&&◌, length, map, slice_get, true, not, All, IfOk, OnOk, None};
ghost use Rattle.sig_expr.specs.Shapes.{view_tree};
ghost use Rattle.sig_report.specs.Lawful.{all_views};
ghost use Rattle.sig_report.specs.Playing.{edits_of, with_edit, written};
ghost use Rattle.sig_run.specs.Stages.{AreFresh, AreOpenTo, IsOpenTo, leaf_sources};
ghost use Rattle.sig_expr.specs.Bounds.{cap_of};
ghost use Rattle.sig_expr.specs.Leaves.{leaves};
ghost use Rattle.sig_hist.specs.Plain.{known};
ghost use Rattle.sig_hist.specs.Ports.{IsSoundPort};
ghost use Rattle.sig_script.specs.Sizes.{views_size};
ghost use Rattle.sig_walk.specs.Walking.{HasSeenMore};
ghost use Rattle.sig_script.specs.SelfContained.{has_event};

use crate::reporting::{source_reports, view_reports};
use crate::watching::{poll, watch};
use sig_diff::{Items, LeafList, NoMemory};
use sig_expr::{Caps, View, leaves};
use sig_hist::{Edit, EditError, Plain};
use sig_report::Report;
use sig_script::{Event, Script, ViewDef, WriterDef, caps, plans};
use sig_view::WatchedView;
use std::alloc::{AllocError, Global};

/// A play at one moment.
#[derive(Drop)]
pub struct Stage {
    /// The sources, and the leaves of the views, one view's behind another's.
    port: Plain,
    /// How many events each writer has had.
    done: Vec<usize>,
    views: Vec<WatchedView>,
}

impl Stage {
    ghost use Rattle.sig_report.specs.Playing.{by_view, by_writer, opened, played, scheduled, taken, times};
    ghost use Rattle.sig_report.proofs.Endings.{ended_from, written_from};
    ghost use Rattle.sig_run.specs.Stages.{IsInStep, IsPlayable, played_of, reported};

    /// The play before its first event.
    pub fn new(alloc: Global, script: &Script) -> Result<Stage, NoMemory>
        requires { IsPlayable script.now }
        ensures step { IfOk result (IsInStep script.now) }
        ensures played { IfOk result (λ stage. played_of stage ≡ opened script.now) }
    {
        let views = script.views.as_slice();
        let caps = caps(alloc, script)?;
        Ok(Stage {
            port: Plain::new(alloc, plans(alloc, script)?, leaves_of(alloc, views)?)?,
            done: none_done(alloc, script.writers.as_slice())?,
            views: views_of(alloc, views, &caps)?,
        })
    }

    /// One event of the schedule.
    pub fn take(&mut self, alloc: Global, script: &Script, event: Event) -> Result<(), NoMemory>
        requires step { IsInStep script.now self.old }
        requires event { has_event script.now event ≡ true }
        ensures step { OnOk result (IsInStep script.now self.new) }
        ensures played { OnOk result (played_of self.new
            ≡ taken script.now event (played_of self.old)) }
    {
        match event {
            Event::Writer(writer) => self.write(script, writer),
            // No script that is built has a share.
            Event::Share(_) => unreachable!(),
            Event::View(view) => self.poll(alloc, script, script.shares.len() + view),
        }
    }

    /// A writer's next event.
    pub fn write(&mut self, script: &Script, writer: usize) -> Result<(), NoMemory>
        requires step { IsInStep script.now self.old }
        requires writer { writer < length script.now.writers }
        ensures step { OnOk result (IsInStep script.now self.new) }
        ensures played { OnOk result (played_of self.new
            ≡ by_writer script.now writer (played_of self.old)) }
    {
        let done = self.done[writer];
        let next = next_count(done)?;
        let caller = caller_of(writer)?;
        write_next(&mut self.port, caller, edits_of(script, writer), done)?;
        self.done[writer] = next;
        Ok(())
    }

    /// A poll of a view, by its number among the shares and the views.
    pub fn poll(&mut self, alloc: Global, script: &Script, view: usize) -> Result<(), NoMemory>
        requires step { IsInStep script.now self.old }
        requires view { view < length (all_views script.now) }
        ensures step { OnOk result (IsInStep script.now self.new) }
        ensures played { OnOk result (played_of self.new
            ≡ by_view script.now view (played_of self.old)) }
    {
        let Stage { port, views, .. } = self;
        poll(alloc, port, &mut views[view])
    }

    /// The events of the schedule.
    pub fn play_schedule(&mut self, alloc: Global, script: &Script) -> Result<(), NoMemory>
        requires { IsInStep script.now self.old }
        ensures step { OnOk result (IsInStep script.now self.new) }
        ensures played { OnOk result (played_of self.new
            ≡ scheduled script.now script.now.schedule (played_of self.old)) }
    {
        'events: for event in script.schedule.as_slice() {
            self.take(alloc, script, *event)?;
        }
        Ok(())
    }

    /// What each writer has left: the rest of its edits, and its leave.
    pub fn write_out(&mut self, script: &Script) -> Result<(), NoMemory>
        requires { IsInStep script.now self.old }
        ensures step { OnOk result (IsInStep script.now self.new) }
        ensures played { OnOk result (played_of self.new
            ≡ written_from script.now 0 script.now.writers (played_of self.old)) }
    {
        'writers: for (writer, def) in script.writers.as_slice().iter().enumerate() {
            self.write_often(script, writer, def.edits.len())?;
        }
        Ok(())
    }

    /// So many events of a writer, and one more.
    fn write_often(&mut self, script: &Script, writer: usize, count: usize) -> Result<(), NoMemory>
        requires step { IsInStep script.now self.old }
        requires writer { writer < length script.now.writers }
        ensures step { OnOk result (IsInStep script.now self.new) }
        ensures played { OnOk result (played_of self.new
            ≡ times (count + 1) (by_writer script.now writer) (played_of self.old)) }
    {
        self.write(script, writer)?;
        'rest: for _event in 0..count {
            self.write(script, writer)?;
        }
        Ok(())
    }

    /// Two polls of each view: the first goes to the end of the closed histories, and the second ends the view.
    pub fn poll_out(&mut self, alloc: Global, script: &Script) -> Result<(), NoMemory>
        requires { IsInStep script.now self.old }
        ensures step { OnOk result (IsInStep script.now self.new) }
        ensures played { OnOk result (played_of self.new
            ≡ ended_from script.now 0 script.now.views (played_of self.old)) }
    {
        'views: for (view, _def) in script.views.as_slice().iter().enumerate() {
            self.poll_twice(alloc, script, view)?;
        }
        Ok(())
    }

    fn poll_twice(&mut self, alloc: Global, script: &Script, view: usize) -> Result<(), NoMemory>
        requires step { IsInStep script.now self.old }
        requires view { view < length (all_views script.now) }
        ensures step { OnOk result (IsInStep script.now self.new) }
        ensures played { OnOk result (played_of self.new
            ≡ times 2 (by_view script.now view) (played_of self.old)) }
    {
        self.poll(alloc, script, view)?;
        self.poll(alloc, script, view)
    }

    /// The report of a play that is over.
    pub fn report(self, alloc: Global, script: &Script) -> Result<Report, NoMemory>
        requires step { IsInStep script.now self }
        requires over { played_of self ≡ played script.now }
        ensures report { IfOk result (λ report. report ≡ reported script.now (played_of self)) }
        ensures few { IfOk result (λ report. All (λ source. length source.history < 2 ^ 32) report.sources) }
    {
        let Stage { port, views, .. } = self;
        let sources = source_reports(alloc, script.sources.as_slice(), port.into_sources())?;
        let views = view_reports(alloc, script.views.as_slice(), views, sources.as_slice())?;
        Ok(Report { sources, views })
    }
}

/// No event yet for each writer.
fn none_done(alloc: Global, writers: &[WriterDef]) -> Result<Vec<usize>, NoMemory>
    ensures { IfOk result (λ done. done.items ≡ map (λ writer. 0) writers.now) }
{
    let mut done = Vec::with_capacity(alloc, writers.len())?;
    'writers: for _writer in writers {
        done.push(0)?;
    }
    Ok(done)
}

/// The source of each leaf of the views.
fn leaves_of(alloc: Global, defs: &[ViewDef]) -> Result<LeafList, NoMemory>
    ensures sources { IfOk result (λ sources. sources ≡ leaf_sources defs.now) }
    ensures few { IfOk result (λ sources. length sources < 2 ^ 64) }
{
    let mut sources = Vec::new(alloc);
    'views: for def in defs {
        sources.extend_from_slice(leaves(alloc, &def.view)?.as_slice())?;
    }
    Ok(Items::from_vec(sources))
}

/// The views before their first rows.
fn views_of(alloc: Global, defs: &[ViewDef], caps: &Caps) -> Result<Vec<WatchedView>, NoMemory>
    requires { views_size (cap_of caps.now) 0 defs.now ≡ None }
    ensures { IfOk result (λ views. AreFresh caps.now 0 defs.now views.items) }
{
    let mut views = Vec::with_capacity(alloc, defs.len())?;
    let mut first = 0;
    'views: for def in defs {
        views.push(watch(alloc, &def.view, caps, first)?)?;
        first = next_first(alloc, first, &def.view)?;
    }
    Ok(views)
}

/// The number of the first leaf behind a view. Where no usize is as large, which no script comes to, that counts as want of memory.
fn next_first(alloc: Global, first: usize, view: &View) -> Result<usize, NoMemory>
    ensures { IfOk result (λ next. next ≡ first + length (leaves (view_tree view.now))) }
{
    let count = leaves(alloc, view)?.len();
    first.checked_add(count).ok_or(AllocError)
}

/// What a writer does in its event after so many: its next edit, or after the last one its leave.
#[tactic(auto, using(crate::proofs::Seeing::nothing_more))]
fn write_next(
    port: &mut Plain,
    caller: u32,
    edits: &[(usize, Edit)],
    done: usize,
) -> Result<(), NoMemory>
    requires open_to { AreOpenTo port.old caller edits.now done }
    requires sound { IsSoundPort (known port.old) }
    ensures written { OnOk result (port.new.sources ≡ written caller edits.now done port.old.sources) }
    ensures more { HasSeenMore (known port.old) (known port.new) }
{
    if done < edits.len() {
        let (source, edit) = edit_at(edits, done);
        edit_source(port, *source, caller, edit)
    } else if is_after_last(edits, done) {
        port.leave_all(caller);
        Ok(())
    } else {
        Ok(())
    }
}

/// Whether the event after so many comes after the last edit of a writer that has edits.
fn is_after_last(edits: &[(usize, Edit)], done: usize) -> bool
    ensures { result ≡ (not (length edits.now == 0) && (done == length edits.now)) }
{
    !edits.is_empty() && done == edits.len()
}

fn edits_of(script: &Script, writer: usize) -> &[(usize, Edit)]
    requires { writer < length script.now.writers }
    ensures { result.now ≡ edits_of script.now writer }
{
    script.writers.as_slice()[writer].edits.as_slice()
}

fn edit_at(edits: &[(usize, Edit)], place: usize) -> &(usize, Edit)
    requires { place < length edits.now }
    ensures { slice_get edits.now place ≡ Some result.now }
{
    &edits[place]
}

/// Makes an edit of a source.
#[tactic(auto, using(crate::proofs::Seeing::nothing_more))]
fn edit_source(port: &mut Plain, source: usize, caller: u32, edit: &Edit) -> Result<(), NoMemory>
    requires open_to { IsOpenTo port.old caller (source, edit.now) }
    requires sound { IsSoundPort (known port.old) }
    ensures edited { OnOk result (port.new.sources ≡ with_edit source caller edit.now port.old.sources) }
    ensures more { HasSeenMore (known port.old) (known port.new) }
{
    match port.edit(source, caller, edit) {
        Ok(_) => Ok(()),
        Err(EditError::NoMemory) => Err(AllocError),
        // A writer makes no other edits than its own.
        Err(EditError::Spent { .. }) => unreachable!(),
    }
}

/// One more than a count. Where no usize is larger, which no play comes to, that counts as want of memory.
fn next_count(count: usize) -> Result<usize, NoMemory>
    ensures { IfOk result (λ next. next ≡ count + 1) }
{
    count.checked_add(1).ok_or(AllocError)
}

/// The number of a writer as a caller. One that fits no u32, which no script that is read has, counts as want of
/// memory.
fn caller_of(writer: usize) -> Result<u32, NoMemory>
    ensures { IfOk result (λ caller. caller ≡ writer) }
{
    u32::try_from(writer).map_err(|_| AllocError)
}
