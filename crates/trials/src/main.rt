//! Plays each script that a list names, and says where what is printed isn't the report that lies beside it, or where a view that is polled over a
//! hub gives other rows.
#![tactic(auto)]

mod hub_plays;
#[cfg(test)]
mod hubs;
mod running;
mod stages;
#[cfg(test)]
mod tests;
mod texts;
#[cfg(test)]
mod three_views;

use crate::hub_plays::gives_rows;
use crate::running::run;
use crate::texts::expanded;
use sig_io::Page;
use std::alloc::{AllocError, Global};
use std::sync::Wait;
use std::thread::Threads;
use std::{fs, io};

/// Names, one a line. Of each NAME the script is NAME.json, and what must be printed is NAME.txt: the
/// report, or the line of the refusal. In both an item that comes often is written once.
const LIST: &str = "plays";

/// More than any report here has, in bytes.
const ROOM: usize = 1 << 20;

fn main(rt: HostRuntime) -> io::Result<()> {
    let names = fs::read_to_string(&rt, LIST)?;
    let mut as_written = 0_u32;
    for name in names.as_str().lines() {
        let script = read(&rt, name, "json")?;
        let report = read(&rt, name, "txt")?;
        if is_as_written(&rt, rt.alloc(), script.as_str(), report.as_str())? {
            as_written = as_written.saturating_add(1);
        } else {
            println!(rt; "{name} differs")?;
        }
    }
    println!(rt; "{as_written} plays as written")
}

/// The text of one of a play's files.
fn read(rt: &HostRuntime, name: &str, kind: &str) -> io::Result<String> {
    let path = format!(in rt.alloc(); "{name}.{kind}")?;
    let text = fs::read_to_string(rt, path.as_str())?;
    Ok(expanded(rt.alloc(), text.as_str())?)
}

/// Whether the program prints this report or refusal for a script, and a hub gives the report's rows.
fn is_as_written<R: Threads + Wait + Sync>(
    rt: &R,
    alloc: Global,
    script: &str,
    report: &str,
) -> Result<bool, AllocError> {
    if report.starts_with("script ") {
        return prints(rt, alloc, script, report, 4);
    }
    Ok(prints(rt, alloc, script, report, 0)? && gives_rows(rt, alloc, script.as_bytes(), report)?)
}

/// Whether the program prints this for a script, and ends with this status.
fn prints<R: Threads + Wait + Sync>(
    rt: &R,
    alloc: Global,
    script: &str,
    report: &str,
    wanted: u8,
) -> Result<bool, AllocError> {
    let mut page = Page::new(alloc, ROOM, ROOM, Vec::new(alloc))?;
    let status = run(rt, alloc, &["play"], script.as_bytes(), 0, &mut page)?;
    Ok(status == wanted && page.as_slice() == report.as_bytes())
}
