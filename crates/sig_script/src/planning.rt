ghost use Rattle.std.specs.Prelude.{◌≡◌, ◌+◌, ◌-◌, ℕ, [], ◌∷◌, All, IfOk};
ghost use Rattle.sig_diff.specs.declared.contents.Content.TheVariants.{Cell};
ghost use Rattle.sig_hist.specs.Changes.{IsInOrder};
ghost use Rattle.sig_hist.specs.Sources.{IsPlan};
ghost use Rattle.sig_script.specs.Growths.{clipped};
ghost use Rattle.sig_script.specs.Plans.{allowances, plans_of, source_plans};
ghost use Rattle.sig_script.specs.Rooms.{all_edits_on, cap_for};

use crate::rooms::{cap_of, count_on, fitted, share_room, source_room, source_rooms};
use crate::types::{Script, ShareDef, SourceDef, WriterDef};
use sig_diff::{Content, Items, NoMemory, TryCopy};
use sig_hist::{Allowance, Allowances, Plans, SourcePlan};
use std::alloc::Global;

/// The plan of each source of a script, and behind them of each share's cell. What fits no u32, which no script
/// within its limits has, counts as want of memory.
pub fn plans(alloc: Global, script: &Script) -> Result<Plans, NoMemory>
    ensures plans { IfOk result (λ plans. plans ≡ plans_of script.now) }
    ensures all { IfOk result (All IsPlan) }
{
    let writers = script.writers.as_slice();
    let mut plans = source_plans(alloc, writers, script.sources.as_slice())?;
    let mut rooms = source_rooms(alloc, script)?;
    'shares: for (number, share) in script.shares.as_slice().iter().enumerate() {
        let room = share_room(alloc, rooms.as_slice(), &share.signal)?;
        let caller = caller_of(writers.len(), number)?;
        plans.push(share_plan(alloc, share, caller, room)?)?;
        rooms.push(room)?;
    }
    Ok(plans)
}

/// The plans of the sources.
fn source_plans(
    alloc: Global,
    writers: &[WriterDef],
    sources: &[SourceDef],
) -> Result<Plans, NoMemory>
    ensures plans { IfOk result (λ plans. plans ≡ source_plans writers.now 0 sources.now) }
    ensures all { IfOk result (All IsPlan) }
{
    let mut plans = Items::new(alloc);
    'sources: for (number, source) in sources.iter().enumerate() {
        plans.push(source_plan(alloc, source, number, writers)?)?;
    }
    Ok(plans)
}

/// The plan of the source with this number.
#[tactic(auto, using(crate::proofs::Allowing::distinct_allowances, crate::proofs::Allowing::room_of_allowances))]
fn source_plan(
    alloc: Global,
    source: &SourceDef,
    number: usize,
    writers: &[WriterDef],
) -> Result<SourcePlan, NoMemory>
    ensures start { IfOk result (λ plan. plan.start ≡ source.now.start) }
    ensures cap { IfOk result (λ plan. plan.cap ≡ cap_for source.now.start (all_edits_on number writers.now)) }
    ensures allow { IfOk result (λ plan. plan.allow ≡ allowances number 0 writers.now) }
    ensures is_plan { IfOk result IsPlan }
{
    // A plan is one whose room fits too.
    let _room = fitted(source_room(number, writers))?;
    Ok(SourcePlan {
        start: start_of(source)?,
        cap: cap_of(source, number, writers)?,
        allow: allowances(alloc, number, writers)?,
    })
}

/// What a source starts with. Of a map's slice it is known that the keys rise.
fn start_of(source: &SourceDef) -> Result<Content, NoMemory>
    ensures start { IfOk result (λ start. start ≡ source.now.start) }
    ensures in_order { IsInOrder source.now.start }
{
    if let Content::Map(entries) = &source.start {
        let _ = entries.as_slice();
    }
    source.start.copy()
}

/// Who may edit a source, and how often.
fn allowances(alloc: Global, source: usize, writers: &[WriterDef]) -> Result<Allowances, NoMemory>
    ensures { IfOk result (λ allow. allow ≡ allowances source 0 writers.now) }
{
    let mut allow = Items::new(alloc);
    'writers: for (number, writer) in writers.iter().enumerate() {
        match count_on(source, writer.edits.as_slice()) {
            0 => {}
            edits => allow.push(allowance(number, edits)?)?,
        }
    }
    Ok(allow)
}

fn allowance(writer: usize, edits: u64) -> Result<Allowance, NoMemory>
    ensures { IfOk result (λ allowance. allowance ≡ record { writer = writer; edits = edits }) }
{
    Ok(Allowance {
        writer: fitted(writer as u64)?,
        edits: fitted(edits)?,
    })
}

/// The caller's number of the share with this number, after so many writers.
fn caller_of(writers: usize, share: usize) -> Result<u32, NoMemory>
    ensures { IfOk result (λ caller. caller ≡ writers + share) }
{
    fitted((writers as u64).saturating_add(share as u64))
}

/// The plan of a share's cell, which only this caller may edit, as often as this room says.
fn share_plan(
    alloc: Global,
    share: &ShareDef,
    caller: u32,
    room: u64,
) -> Result<SourcePlan, NoMemory>
    ensures start { IfOk result (λ plan. plan.start ≡ Cell share.now.start) }
    ensures cap { IfOk result (λ plan. plan.cap ≡ 1) }
    ensures allow { (exact : ℕ) → room ≡ clipped exact
        → IfOk result (λ plan. plan.allow ≡ record { writer = caller; edits = exact - 1 } ∷ []) }
    ensures is_plan { IfOk result IsPlan }
{
    let edits = fitted(room)?.saturating_sub(1);
    let mut allow = Items::new(alloc);
    allow.push(Allowance {
        writer: caller,
        edits,
    })?;
    Ok(SourcePlan {
        start: Content::Cell(share.start),
        cap: 1,
        allow,
    })
}
