ghost use Rattle.std.specs.Prelude.{◌≡◌, is_some, filter_map, IfOk};
ghost use Rattle.std.specs.List.{list_any};
ghost use Rattle.sig_hist.specs.Entering.{whole};
ghost use Rattle.sig_hist.specs.ByReplies.{took_effect, replied_number, replied_list, replied_map, replied_put, replied_entering};

use crate::edits::{Edit, Entry, Reply};
use crate::ports::Entering;
use sig_diff::{Content, Diffs, Items, MapDiff, MapDiffs, NoMemory, TryCopy, VecDiff};
use std::alloc::Global;

/// More entries than these aren't told one by one.
const MOST_TOLD: usize = 64;

/// A content whole.
pub fn whole(content: &Content) -> Result<Entering, NoMemory>
    ensures { IfOk result (λ entering. entering ≡ whole content.now) }
{
    match content {
        Content::Cell(value) => Ok(Entering::Value(*value)),
        Content::Vector(items) => {
            let values = items.copy()?;
            let mut diffs = Items::new(items.alloc());
            diffs.push(VecDiff::Replace { values })?;
            Ok(Entering::Vector(diffs))
        }
        Content::Map(entries) => {
            let mut diffs = Items::new(entries.alloc());
            let entries = entries.copy()?;
            diffs.push(MapDiff::Replace { entries })?;
            Ok(Entering::Map(diffs))
        }
    }
}

/// What enters by entries that led to a content.
pub fn entering(content: &Content, passed: &[Entry]) -> Result<Entering, NoMemory>
    ensures { IfOk result (λ entering. entering ≡ replied_entering content.now passed.now) }
{
    match content {
        Content::Cell(value) if give_number(passed) => Ok(Entering::Value(*value)),
        Content::Cell(_) => Ok(Entering::Nothing),
        _ if passed.len() > MOST_TOLD => whole(content),
        Content::Vector(items) => Ok(Entering::Vector(replied_lists(items.alloc(), passed)?)),
        Content::Map(entries) => Ok(Entering::Map(replied_maps(entries.alloc(), passed)?)),
    }
}

fn took_effect(reply: Reply) -> bool
    ensures { result ≡ took_effect reply }
{
    matches!(&reply, Reply::Fine | Reply::Was(_))
}

/// Whether an entry gave a cell a number.
fn gives_number(entry: &Entry) -> bool
    ensures { result ≡ is_some (replied_number entry.now.edit entry.now.reply) }
{
    match &entry.edit {
        Edit::Set(_) => true,
        Edit::SetNeq(_) => took_effect(entry.reply),
        Edit::Add(_) => matches!(&entry.reply, Reply::Was(_)),
        _ => false,
    }
}

/// Whether one of some entries gave a cell a number.
fn give_number(passed: &[Entry]) -> bool
    ensures { result ≡ list_any (λ entry. is_some (replied_number entry.edit entry.reply)) passed.now }
{
    passed.iter().any(gives_number)
}

/// The difference of a vector that an entry made.
fn replied_list(entry: &Entry) -> Result<Option<VecDiff<i64>>, NoMemory>
    ensures { IfOk result (λ told. told ≡ replied_list entry.now.edit entry.now.reply) }
{
    match &entry.edit {
        Edit::Vector(diff) if took_effect(entry.reply) => Ok(Some(diff.copy()?)),
        _ => Ok(None),
    }
}

fn replied_lists(alloc: Global, passed: &[Entry]) -> Result<Diffs<i64>, NoMemory>
    ensures { IfOk result (λ diffs. diffs ≡ filter_map (λ entry. replied_list entry.edit entry.reply) passed.now) }
{
    let mut diffs = Items::new(alloc);
    'passed: for entry in passed {
        if let Some(diff) = replied_list(entry)? {
            diffs.push(diff)?;
        }
    }
    Ok(diffs)
}

/// The difference of a map that an entry made.
fn replied_map(entry: &Entry) -> Result<Option<MapDiff<i64>>, NoMemory>
    ensures { IfOk result (λ told. told ≡ replied_map entry.now.edit entry.now.reply) }
{
    Ok(match &entry.edit {
        Edit::Put(key, value) => replied_put(*key, *value, entry.reply),
        Edit::Delete(key) if took_effect(entry.reply) => Some(MapDiff::Remove { key: *key }),
        Edit::Load(entries) if took_effect(entry.reply) => Some(MapDiff::Replace {
            entries: entries.copy()?,
        }),
        Edit::Wipe => Some(MapDiff::Clear),
        _ => None,
    })
}

fn replied_put(key: i64, value: i64, reply: Reply) -> Option<MapDiff<i64>>
    ensures { result ≡ replied_put key value reply }
{
    match reply {
        Reply::Fine => Some(MapDiff::Insert { key, value }),
        Reply::Was(_) => Some(MapDiff::Update { key, value }),
        _ => None,
    }
}

fn replied_maps(alloc: Global, passed: &[Entry]) -> Result<MapDiffs<i64>, NoMemory>
    ensures { IfOk result (λ diffs. diffs ≡ filter_map (λ entry. replied_map entry.edit entry.reply) passed.now) }
{
    let mut diffs = Items::new(alloc);
    'passed: for entry in passed {
        if let Some(diff) = replied_map(entry)? {
            diffs.push(diff)?;
        }
    }
    Ok(diffs)
}
