//! Plays over a hub with one poller: each event is an edit, a leave or one poll.
ghost use Rattle.std.specs.Prelude.{IfOk, OnOk};
ghost use Rattle.trials.specs.Stages.{IsStage};

use crate::stages::Stage;
use sig_diff::{Items, NoMemory, TryCopy};
use sig_expr::{Shown, View};
use sig_report::{Report, SourceReports, ViewReport, ViewReports, report_text};
use sig_script::{Event, Script, ViewDef, ViewKind, plans, read_script};
use sig_view::Rows;
use std::alloc::{AllocError, Global};
use std::sync::Wait;

/// Whether each view of a script, polled over a hub of its own, gives the rows that a report of the script's play has.
pub fn gives_rows<R: Wait>(
    rt: &R,
    alloc: Global,
    script: &[u8],
    report: &str,
) -> Result<bool, NoMemory> {
    let Ok(script) = read_script(alloc, script) else {
        return Ok(false);
    };
    'views: for (number, def) in script.views.as_slice().iter().enumerate() {
        let rows = play(rt, alloc, &script, number, &def.view)?;
        let text = rows_text(alloc, &script, def, rows)?;
        if !has(report.as_bytes(), text.as_slice()) {
            return Ok(false);
        }
    }
    Ok(true)
}

/// Whether a text has a part.
fn has(text: &[u8], part: &[u8]) -> bool {
    part.is_empty() || text.windows(part.len()).any(|piece| piece == part)
}

/// The rows of one view.
fn play<R: Wait>(
    rt: &R,
    alloc: Global,
    script: &Script,
    number: usize,
    view: &View,
) -> Result<Rows, NoMemory> {
    let writers = script.writers.len();
    if writers > u32::MAX as usize {
        return Err(AllocError);
    }
    let plans = plans(alloc, script)?;
    let mut views = Items::new(alloc);
    views.push(view.copy()?)?;
    let stage = Stage::new(alloc, plans, writers as u32, views.as_slice())?;
    played(rt, stage, script, number)
}

/// The rows of a stage's view, once all is played.
fn played<R: Wait>(
    rt: &R,
    mut stage: Stage,
    script: &Script,
    number: usize,
) -> Result<Rows, NoMemory>
    requires { IsStage stage }
{
    match play_out(rt, &mut stage, script, number) {
        Ok(()) => rows_of(stage),
        Err(error) => Err(error),
    }
}

fn rows_of(stage: Stage) -> Result<Rows, NoMemory> {
    let Stage { exec, .. } = stage;
    exec.rows().pop().ok_or(AllocError)
}

/// The schedule's events, then what each writer has left, then polls to the view's end.
fn play_out<R: Wait>(
    rt: &R,
    stage: &mut Stage,
    script: &Script,
    number: usize,
) -> Result<(), NoMemory>
    requires { IsStage stage.old }
{
    'events: for event in script.schedule.as_slice() {
        take(rt, stage, script, number, *event)?;
    }
    write_out(rt, stage, script);
    poll_out(rt, stage)
}

/// One event of the schedule. Polls of other views are none of this hub's.
fn take<R: Wait>(
    rt: &R,
    stage: &mut Stage,
    script: &Script,
    number: usize,
    event: Event,
) -> Result<(), NoMemory>
    requires { IsStage stage.old }
    ensures { OnOk result (IsStage stage.new) }
{
    match event {
        Event::Writer(writer) => write(rt, stage, script, writer),
        Event::View(view) if view == number => poll(rt, stage)?,
        Event::View(_) | Event::Share(_) => {}
    }
    Ok(())
}

/// A writer's next event.
fn write<R: Wait>(rt: &R, stage: &mut Stage, script: &Script, writer: usize)
    requires { IsStage stage.old }
    ensures { IsStage stage.new }
{
    if let Some(def) = script.writers.as_slice().get(writer) {
        stage.write(rt, writer, def.edits.as_slice());
    }
}

/// What each writer has left: the rest of its edits, and its leave.
fn write_out<R: Wait>(rt: &R, stage: &mut Stage, script: &Script)
    requires { IsStage stage.old }
    ensures { IsStage stage.new }
{
    'writers: for writer in 0..script.writers.len() {
        write_often(rt, stage, script, writer);
    }
}

/// As many events of a writer as it has, and no more.
fn write_often<R: Wait>(rt: &R, stage: &mut Stage, script: &Script, writer: usize)
    requires { IsStage stage.old }
    ensures { IsStage stage.new }
{
    let edits = script
        .writers
        .as_slice()
        .get(writer)
        .map_or(0, |def| def.edits.len());
    'events: for _event in 0..=edits {
        write(rt, stage, script, writer);
    }
}

/// Polls to the end: the first one of these goes to the end of the closed histories, and the second ends the view. Before them comes one that
/// waits, where the view has a token yet.
fn poll_out<R: Wait>(rt: &R, stage: &mut Stage) -> Result<(), NoMemory>
    requires { IsStage stage.old }
    ensures { OnOk result (IsStage stage.new) }
{
    'polls: for _poll in 0..3 {
        poll(rt, stage)?;
    }
    Ok(())
}

/// One poll of the view, where its task has a token or was told.
fn poll<R: Wait>(rt: &R, stage: &mut Stage) -> Result<(), NoMemory>
    requires { IsStage stage.old }
    ensures { OnOk result (IsStage stage.new) }
{
    if stage.poll(rt).short {
        return Err(AllocError);
    }
    Ok(())
}

/// The text of rows as a report has them, from the line of the view to the word of what they show at last.
fn rows_text(
    alloc: Global,
    script: &Script,
    def: &ViewDef,
    rows: Rows,
) -> Result<Vec<u8>, NoMemory> {
    let mut views = ViewReports::new(alloc);
    views.push(ViewReport {
        name: def.name.copy()?,
        kind: kind_of(&def.view),
        rows,
        last: Shown::Signal(0),
    })?;
    let report = Report {
        sources: SourceReports::new(alloc),
        views,
    };
    let mut text = report_text(alloc, script, &report)?;
    text.truncate(text.len().saturating_sub(LAST.len()));
    Ok(text)
}

/// The last shown in the text, and the end of its line.
const LAST: &str = "0\n";

fn kind_of(view: &View) -> ViewKind {
    match view {
        View::Signal(_) => ViewKind::Signal,
        View::Vector(_) => ViewKind::Vector,
        View::Map(_) => ViewKind::Map,
        View::Entries(_) => ViewKind::Entries,
        View::Enumerate(_) => ViewKind::Enumerate,
    }
}
