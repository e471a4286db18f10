ghost use Rattle.std.specs.Prelude.{◌≡◌, List, [], ◌∷◌, ◌++◌, map, slice_get, IfOk};
ghost use Rattle.sig_script.specs.Schedules.{event_limit, is_spent, schedule_fault};
ghost use Rattle.sig_script.specs.Spending.{IsLeft, left_after};
ghost use Rattle.sig_script.specs.declared.types.Event.{Event};
ghost use Rattle.sig_script.specs.declared.types.WriterDef.{WriterDef};

use crate::types::{Event, Script, WriterDef};
use sig_diff::{Items, NoMemory};
use std::alloc::Global;

/// The place of the first event of a schedule that its writer has nothing left for.
#[tactic(auto, using(crate::proofs::Spending::goes_on))]
pub fn schedule_fault(alloc: Global, script: &Script) -> Result<Option<usize>, NoMemory>
    ensures { IfOk result (λ place. place ≡ schedule_fault script.now) }
{
    let mut left = event_limits(alloc, script.writers.as_slice())?;
    'events: for (place, event) in script.schedule.as_slice().iter().enumerate() {
        if is_spent(left.as_slice(), *event) {
            return Ok(Some(place));
        }
        count(&mut left, *event);
    }
    Ok(None)
}

/// How many events each writer can have.
fn event_limits(alloc: Global, writers: &[WriterDef]) -> Result<Items<usize>, NoMemory>
    ensures { IfOk result (λ limits. limits ≡ map event_limit writers.now) }
{
    let mut limits = Items::new(alloc);
    'writers: for writer in writers {
        limits.push(event_limit(writer))?;
    }
    Ok(limits)
}

/// How many events a writer can have: its edits and a leave, and none where it has no edits.
fn event_limit(writer: &WriterDef) -> usize
    ensures { result ≡ event_limit writer.now }
{
    match writer.edits.as_slice().len() {
        0 => 0,
        edits => edits + 1,
    }
}

/// Whether an event's writer has none left.
fn is_spent(left: &[usize], event: Event) -> bool
    ensures { (writers : List WriterDef) (before : List Event) → IsLeft writers before left.now
        → result ≡ is_spent writers before event }
{
    match event {
        Event::Writer(writer) => left_to(left, writer) == Some(0),
        _ => false,
    }
}

/// Counts an event.
fn count(left: &mut Items<usize>, event: Event)
    ensures { left.new ≡ left_after event left.old }
{
    if let Event::Writer(writer) = event {
        if let Some(count) = left_to(left.as_slice(), writer) {
            left.set(writer, count.saturating_sub(1));
        }
    }
}

/// How many events are left to a writer.
fn left_to(left: &[usize], writer: usize) -> Option<usize>
    ensures { result ≡ slice_get left.now writer }
{
    left.get(writer).copied()
}
