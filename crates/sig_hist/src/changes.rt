ghost use Rattle.std.specs.Prelude.{◌≡◌, ◌≤◌, ◌<◌, ◌^◌, length, IfOk, OnOk, OnErr};
ghost use Rattle.sig_diff.specs.declared.contents.Content.TheVariants.{Cell, Vector, Map};
ghost use Rattle.sig_hist.specs.Changes.{can_load, edited, reply_to, size_of, is_long, vector_reply};

use crate::edits::{Edit, Reply};
use sig_diff::{Content, Entries, Items, NoMemory, VecDiff, apply, is_lawful};

/// Makes an edit of a content that has at most `cap` elements, and answers it. An edit of another kind, and a
/// leave, change nothing. After want of memory the content is as it was.
#[tactic(auto, using(crate::proofs::Entries::within_cap))]
pub fn execute(content: &mut Content, cap: u32, edit: &Edit) -> Result<Reply, NoMemory>
    requires { size_of content.old ≤ cap }
    ensures reply { IfOk result (λ reply. reply ≡ reply_to content.old cap edit.now) }
    ensures content { OnOk result (content.new ≡ edited content.old cap edit.now) }
    ensures within { size_of content.new ≤ cap }
    ensures err { OnErr result (content.new ≡ content.old) }
{
    match content {
        Content::Cell(number) => Ok(edit_cell(number, cap, edit)),
        Content::Vector(items) => edit_vector(items, cap, edit),
        Content::Map(entries) => edit_map(entries, cap, edit),
    }
}

fn edit_cell(number: &mut i64, cap: u32, edit: &Edit) -> Reply
    ensures reply { result ≡ reply_to (Cell number.old) cap edit.now }
    ensures content { Cell number.new ≡ edited (Cell number.old) cap edit.now }
{
    let old = *number;
    match edit {
        Edit::Set(new) => *number = *new,
        Edit::SetNeq(new) if *new == old => return Reply::Same,
        Edit::SetNeq(new) => *number = *new,
        Edit::Add(addend) => *number = old.saturating_add(*addend),
        _ => return Reply::Fine,
    }
    Reply::Was(old)
}

fn edit_vector(items: &mut Items<i64>, cap: u32, edit: &Edit) -> Result<Reply, NoMemory>
    requires { length items.old ≤ cap }
    ensures reply { IfOk result (λ reply. reply ≡ reply_to (Vector items.old) cap edit.now) }
    ensures content { OnOk result (Vector items.new ≡ edited (Vector items.old) cap edit.now) }
    ensures err { OnErr result (items.new ≡ items.old) }
{
    let Edit::Vector(diff) = edit else {
        return Ok(Reply::Fine);
    };
    let len = items.len() as u32;
    let reply = reply_of(diff, items.as_slice(), cap);
    if is_lawful(diff, len) && !is_long(diff, len, cap) {
        apply(items, diff)?;
    }
    Ok(reply)
}

/// Whether a difference would make a vector of this length longer than its cap.
fn is_long(diff: &VecDiff<i64>, len: u32, cap: u32) -> bool
    ensures { result ≡ is_long diff.now len cap }
{
    match diff {
        VecDiff::Replace { values } => values.len() > cap as usize,
        VecDiff::InsertAt { .. } | VecDiff::Push { .. } => len >= cap,
        _ => false,
    }
}

/// The reply to a difference of a vector.
fn reply_of(diff: &VecDiff<i64>, items: &[i64], cap: u32) -> Reply
    requires { length items.now < 2 ^ 32 }
    ensures { result ≡ vector_reply items.now cap diff.now }
{
    let len = items.len() as u32;
    if !is_lawful(diff, len) {
        return Reply::OutOfRange { len };
    }
    if is_long(diff, len, cap) {
        return Reply::Long { len };
    }
    match diff {
        VecDiff::UpdateAt { index, .. } | VecDiff::RemoveAt { index } => {
            Reply::Was(items[*index as usize])
        }
        VecDiff::Pop => Reply::Was(items[items.len() - 1]),
        _ => Reply::Fine,
    }
}

#[tactic(auto, using(crate::proofs::Entries::within_cap))]
fn edit_map(entries: &mut Entries<i64>, cap: u32, edit: &Edit) -> Result<Reply, NoMemory>
    requires { length entries.old ≤ cap }
    ensures reply { IfOk result (λ reply. reply ≡ reply_to (Map entries.old) cap edit.now) }
    ensures content { OnOk result (Map entries.new ≡ edited (Map entries.old) cap edit.now) }
    ensures within { size_of (edited (Map entries.old) cap edit.now) ≤ cap }
    ensures err { OnErr result (entries.new ≡ entries.old) }
{
    // Of the slice it is known that its keys rise, and so that an edit keeps the map within its cap.
    let len = entries.as_slice().len() as u32;
    match edit {
        Edit::Put(key, value) => put(entries, cap, *key, *value),
        Edit::Delete(key) => Ok(delete(entries, *key)),
        Edit::Load(others) if !can_load(others, cap) => Ok(Reply::Long { len }),
        Edit::Load(others) => {
            entries.assign(others)?;
            Ok(Reply::Fine)
        }
        Edit::Wipe => {
            entries.clear();
            Ok(Reply::Fine)
        }
        _ => Ok(Reply::Fine),
    }
}

/// Whether entries can be loaded. Their slice's contract says that the keys rise.
fn can_load(others: &Entries<i64>, cap: u32) -> bool
    ensures { result ≡ can_load cap others.now }
{
    others.as_slice().len() <= cap as usize
}

/// Gives a key its value, where the map has it or has room.
fn put(entries: &mut Entries<i64>, cap: u32, key: i64, value: i64) -> Result<Reply, NoMemory>
    requires { length entries.old ≤ cap }
    ensures reply { IfOk result (λ reply. reply ≡ reply_to (Map entries.old) cap (Edit.Put key value)) }
    ensures content { OnOk result (Map entries.new ≡ edited (Map entries.old) cap (Edit.Put key value)) }
    ensures err { OnErr result (entries.new ≡ entries.old) }
{
    if let Some(old) = entries.get(key) {
        entries.update(key, value);
        return Ok(Reply::Was(old));
    }
    let len = entries.len() as u32;
    if len >= cap {
        return Ok(Reply::Long { len });
    }
    entries.insert(key, value)?;
    Ok(Reply::Fine)
}

/// Takes a key out, where the map has it.
fn delete(entries: &mut Entries<i64>, key: i64) -> Reply
    ensures reply { result ≡ reply_to (Map entries.old) 0 (Edit.Delete key) }
    ensures content { Map entries.new ≡ edited (Map entries.old) 0 (Edit.Delete key) }
{
    if entries.get(key).is_none() {
        return Reply::Absent;
    }
    Reply::Was(entries.remove(key))
}
