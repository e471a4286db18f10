ghost use Rattle.std.specs.Prelude.{◌≡◌, ◌^◌, ◌<◌, length, All, IfOk};

use crate::fixtures::{let_go, list};
use sig_diff::{Content, Items, NoMemory, VecDiff};
use sig_hist::{Allowance, Edit, Entry, History, Reply, SourcePlan};
use sig_report::{Report, SourceReport, report_text};
use sig_script::{Event, Script, plans, read_script};
use std::alloc::Global;
use std::test::Fail;

const SCRIPT: &str = r#"{"version":1,
"sources":[{"name":"a","vector":[5,1]},{"name":"c","cell":3},{"name":"m","map":[[1,10]]}],
"writers":[
{"name":"w","edits":[{"on":"a","push":7},{"on":"a","replace":[1,2,3,4]},{"on":"c","set":4}]},
{"name":"v","edits":[{"on":"m","put":[2,20]},{"on":"a","insert":[0,9]}]}],
"views":[{"name":"f","vector":{"vector":"a"}}],
"schedule":["f","v","w"]}"#;

fn has(plan: &SourcePlan, cap: u32, allow: &[Allowance]) -> bool {
    plan.cap == cap && plan.allow.as_slice() == allow
}

fn by(writer: u32, edits: u32) -> Allowance {
    Allowance { writer, edits }
}

/// Whether the plans are those of the script.
fn are_planned(alloc: Global, script: &Script) -> Result<bool, NoMemory> {
    Ok(match plans(alloc, script)?.as_slice() {
        [a, c, m] => {
            has(a, 6, &[by(0, 2), by(1, 1)]) && has(c, 1, &[by(0, 1)]) && has(m, 2, &[by(1, 1)])
        }
        _ => false,
    })
}

/// Whether the events are those of the script.
fn are_scheduled(script: &Script) -> bool {
    let events = [Event::View(0), Event::Writer(1), Event::Writer(0)];
    script.schedule.as_slice() == events.as_slice()
}

/// A report of one source, whose one edit found no room.
fn full_source(alloc: Global) -> Result<Report, NoMemory>
    ensures { IfOk result (λ report. All (λ source. length source.history < 2 ^ 32) report.sources) }
{
    let mut history = History::new(alloc);
    history.push(Entry {
        caller: 1,
        edit: Edit::Vector(VecDiff::Push { value: 2 }),
        reply: Reply::Long { len: 1 },
    })?;
    let mut sources = Items::new(alloc);
    sources.push(SourceReport {
        name: list(alloc, b"a")?,
        start: Content::Cell(3),
        history,
        last: Content::Cell(3),
    })?;
    Ok(Report {
        sources,
        views: Items::new(alloc),
    })
}

/// Whether a report's text tells the source that was full.
fn is_told(alloc: Global, script: &Script) -> Result<bool, NoMemory> {
    let report = full_source(alloc)?;
    let text = report_text(alloc, script, &report)?;
    Ok(text.as_slice() == b"source a cell 3\n1 v push 2 -> long 1\nfinal 3\n".as_slice())
}

#[test]
fn a_script_is_read_and_planned(rt: HostRuntime) -> Result<(), Fail> {
    let script = read_script(rt.alloc(), SCRIPT.as_bytes())?;
    let scheduled = are_scheduled(&script);
    let planned = are_planned(rt.alloc(), &script);
    let told = is_told(rt.alloc(), &script);
    let_go(script);
    assert!(rt; scheduled && planned? && told?);
    Ok(())
}
