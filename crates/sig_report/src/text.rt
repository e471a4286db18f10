ghost use Rattle.std.specs.Prelude.{◌≡◌, ◌++◌, ◌<◌, ◌^◌, All, codes, length, OnOk, IfOk};
ghost use Rattle.std.specs.List.{flat_map};
ghost use Rattle.sig_report.specs.Text.{entry_line, entries_text, final_line, name_of_caller, caller_names, source_text, report_text};

use crate::printing::{Printed, print_all, print_given, print_joined, print_one, print_two};
use crate::report::{Report, SourceReport, ViewReport};
use sig_diff::{Content, NoMemory};
use sig_expr::Shown;
use sig_hist::{Edit, Entry, Reply};
use sig_rows::{Body, Row};
use sig_script::{Script, kind_name, view_kind_name};
use std::alloc::Global;

impl Printed for Content {
    ghost use Rattle.sig_report.specs.Text.{content_text};

    ghost text = { content_text };

    fn print(&self, out: &mut Vec<u8>) -> Result<(), NoMemory> {
        match self {
            Content::Cell(value) => value.print(out),
            Content::Vector(items) => items.print(out),
            Content::Map(entries) => entries.print(out),
        }
    }
}

impl Printed for Shown {
    ghost use Rattle.sig_report.specs.Text.{shown_text};

    ghost text = { shown_text };

    fn print(&self, out: &mut Vec<u8>) -> Result<(), NoMemory> {
        match self {
            Shown::Signal(value) => value.print(out),
            Shown::Vector(items) => items.print(out),
            Shown::Map(entries) => entries.print(out),
            Shown::Pairs(pairs) => pairs.print(out),
            Shown::Tagged(elements) => elements.print(out),
        }
    }
}

impl Printed for Edit {
    ghost use Rattle.sig_report.specs.Text.{edit_text};

    ghost text = { edit_text };

    fn print(&self, out: &mut Vec<u8>) -> Result<(), NoMemory> {
        match self {
            Edit::Vector(diff) => diff.print(out),
            Edit::Set(number) => print_one(out, b"set ", number),
            Edit::SetNeq(number) => print_one(out, b"set_neq ", number),
            Edit::Add(addend) => print_one(out, b"add ", addend),
            Edit::Put(key, value) => print_two(out, b"put ", key, value),
            Edit::Delete(key) => print_one(out, b"delete ", key),
            Edit::Load(entries) => print_one(out, b"load ", entries),
            Edit::Wipe => out.extend_from_slice(b"wipe"),
            Edit::Leave => out.extend_from_slice(b"leave"),
        }
    }
}

impl Printed for Reply {
    ghost use Rattle.sig_report.specs.Text.{reply_text};

    ghost text = { reply_text };

    fn print(&self, out: &mut Vec<u8>) -> Result<(), NoMemory> {
        match self {
            Reply::Fine => out.extend_from_slice(b"ok"),
            Reply::Was(old) => print_one(out, b"was ", old),
            Reply::Same => out.extend_from_slice(b"same"),
            Reply::Absent => out.extend_from_slice(b"absent"),
            Reply::OutOfRange { len } => print_one(out, b"out of range ", len),
            Reply::Long { len } => print_one(out, b"long ", len),
        }
    }
}

impl Printed for Body {
    ghost use Rattle.sig_report.specs.Text.{body_text};

    ghost text = { body_text };

    fn print(&self, out: &mut Vec<u8>) -> Result<(), NoMemory> {
        match self {
            Body::Signal(Some(value)) => print_one(out, b"value ", value),
            Body::Signal(None) => out.extend_from_slice(b"moved"),
            Body::Vector(diffs) => print_given(out, diffs.as_slice()),
            Body::Map(diffs) => print_given(out, diffs.as_slice()),
            Body::Pairs(diffs) => print_given(out, diffs.as_slice()),
            Body::Tagged(diffs) => print_given(out, diffs.as_slice()),
            Body::Ended => out.extend_from_slice(b"ended"),
        }
    }
}

impl Printed for Row {
    ghost use Rattle.sig_report.specs.Text.{row_line};

    ghost text = { row_line };

    fn print(&self, out: &mut Vec<u8>) -> Result<(), NoMemory> {
        out.extend_from_slice(b"at ")?;
        print_joined(out, b" ", self.at.as_slice())?;
        print_one(out, b": ", &self.body)?;
        out.extend_from_slice(b"\n")
    }
}

impl Printed for ViewReport {
    ghost use Rattle.sig_report.specs.Text.{view_text};

    ghost text = { view_text };

    fn print(&self, out: &mut Vec<u8>) -> Result<(), NoMemory> {
        print_heading(
            out,
            b"view ",
            self.name.as_slice(),
            view_kind_name(self.kind),
        )?;
        out.extend_from_slice(b"\n")?;
        print_all(out, self.rows.as_slice())?;
        print_final(out, &self.last)
    }
}

/// The name of a caller, by the writers and then the shares.
fn name_of_caller(script: &Script, caller: u32) -> &[u8]
    ensures { result.now ≡ name_of_caller (caller_names script.now) caller }
{
    let writers = script.writers.as_slice();
    let caller = caller as usize;
    if let Some(writer) = writers.get(caller) {
        return writer.name.as_slice();
    }
    match script.shares.as_slice().get(caller - writers.len()) {
        Some(share) => share.name.as_slice(),
        None => &[],
    }
}

fn print_entry(
    out: &mut Vec<u8>,
    script: &Script,
    number: u32,
    entry: &Entry,
) -> Result<(), NoMemory>
    ensures { OnOk result (out.new.items ≡ out.old.items ++ entry_line (caller_names script.now) number entry.now) }
{
    number.print(out)?;
    out.extend_from_slice(b" ")?;
    out.extend_from_slice(name_of_caller(script, entry.caller))?;
    print_one(out, b" ", &entry.edit)?;
    print_one(out, b" -> ", &entry.reply)?;
    out.extend_from_slice(b"\n")
}

/// The entries, numbered from 1.
fn print_entries(out: &mut Vec<u8>, script: &Script, entries: &[Entry]) -> Result<(), NoMemory>
    requires { length entries.now < 2 ^ 32 }
    ensures { OnOk result (out.new.items ≡ out.old.items ++ entries_text (caller_names script.now) 1 entries.now) }
{
    let mut number = 0;
    'entries: for entry in entries {
        number += 1;
        print_entry(out, script, number, entry)?;
    }
    Ok(())
}

/// The line of what is shown at last.
fn print_final<T: Printed>(out: &mut Vec<u8>, last: &T) -> Result<(), NoMemory>
    ensures { OnOk result (out.new.items ≡ out.old.items ++ final_line (T.text last.now)) }
{
    print_one(out, b"final ", last)?;
    out.extend_from_slice(b"\n")
}

/// A word, a name and a kind.
fn print_heading(out: &mut Vec<u8>, word: &[u8], name: &[u8], kind: &str) -> Result<(), NoMemory>
    ensures { OnOk result (out.new.items ≡ out.old.items ++ word.now ++ name.now ++ codes " " ++ kind.now) }
{
    out.extend_from_slice(word)?;
    out.extend_from_slice(name)?;
    out.extend_from_slice(b" ")?;
    out.extend_from_slice(kind.as_bytes())
}

fn print_source(out: &mut Vec<u8>, script: &Script, source: &SourceReport) -> Result<(), NoMemory>
    requires { length source.now.history < 2 ^ 32 }
    ensures { OnOk result (out.new.items ≡ out.old.items ++ source_text (caller_names script.now) source.now) }
{
    print_heading(
        out,
        b"source ",
        source.name.as_slice(),
        kind_name(source.start.kind()),
    )?;
    print_one(out, b" ", &source.start)?;
    out.extend_from_slice(b"\n")?;
    print_entries(out, script, source.history.as_slice())?;
    print_final(out, &source.last)
}

fn print_sources(
    out: &mut Vec<u8>,
    script: &Script,
    sources: &[SourceReport],
) -> Result<(), NoMemory>
    requires { All (λ source. length source.history < 2 ^ 32) sources.now }
    ensures { OnOk result (out.new.items ≡ out.old.items ++ flat_map (source_text (caller_names script.now)) sources.now) }
{
    'sources: for source in sources {
        print_source(out, script, source)?;
    }
    Ok(())
}

/// The text of a report: for each source its start, its entries and its last content, for each view its rows and
/// what they show at last. A caller that isn't one of the script's has no name in it.
pub fn report_text(alloc: Global, script: &Script, report: &Report) -> Result<Vec<u8>, NoMemory>
    requires { All (λ source. length source.history < 2 ^ 32) report.now.sources }
    ensures { IfOk result (λ text. text.items ≡ report_text script.now report.now) }
{
    let mut out = Vec::new(alloc);
    print_sources(&mut out, script, report.sources.as_slice())?;
    print_all(&mut out, report.views.as_slice())?;
    Ok(out)
}
