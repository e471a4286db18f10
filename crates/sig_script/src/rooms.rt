ghost use Rattle.std.specs.Prelude.{◌≡◌, ◌+◌, ◌-◌, ◌^◌, ℕ, List, map, sum, get_or, length, count_by, min, max, if◌then◌else◌, IfOk};
ghost use Rattle.sig_hist.specs.Changes.{size_of};
ghost use Rattle.sig_script.specs.Growths.{clipped};
ghost use Rattle.sig_script.specs.Rooms.{all_edits_on, cap_for, caps_of, edits_on, is_growth, longest, replaced_length, share_room, source_caps, source_rooms, writer_room};

use crate::types::{Script, SourceDef, WriterDef};
use sig_diff::{Content, Items, NoMemory, VecDiff};
use sig_expr::{Caps, SigExpr};
use sig_hist::Edit;
use std::alloc::{AllocError, Global};

/// How many entries histories can have.
pub type Rooms = Items<u64>;

/// How the edits of a source can make it longer.
#[derive(Clone, Copy)]
struct Growth {
    /// The length of the longest edit that replaces the source.
    longest: u64,
    /// How many edits can make it longer by one.
    growths: u64,
}

/// The caps of a script's sources, and of its shares behind them. A cap that fits no u32, which no script within
/// its limits has, counts as want of memory.
pub fn caps(alloc: Global, script: &Script) -> Result<Caps, NoMemory>
    ensures { IfOk result (λ caps. caps ≡ caps_of script.now) }
{
    let mut caps = source_caps(alloc, script.writers.as_slice(), script.sources.as_slice())?;
    'shares: for _share in script.shares.as_slice() {
        caps.push(1)?;
    }
    Ok(caps)
}

/// The caps of the sources.
fn source_caps(
    alloc: Global,
    writers: &[WriterDef],
    sources: &[SourceDef],
) -> Result<Caps, NoMemory>
    ensures { IfOk result (λ caps. caps ≡ source_caps writers.now 0 sources.now) }
{
    let mut caps = Items::new(alloc);
    'sources: for (number, source) in sources.iter().enumerate() {
        caps.push(cap_of(source, number, writers)?)?;
    }
    Ok(caps)
}

/// The cap of a source.
pub fn cap_of(source: &SourceDef, number: usize, writers: &[WriterDef]) -> Result<u32, NoMemory>
    ensures { IfOk result (λ cap. cap ≡ cap_for source.now.start (all_edits_on number writers.now)) }
{
    fitted(cap_for(&source.start, growth_of(number, writers)))
}

/// A number as a u32, or want of memory where it doesn't fit.
pub fn fitted(number: u64) -> Result<u32, NoMemory>
    ensures { IfOk result (λ fitted. fitted ≡ number) }
{
    u32::try_from(number).map_err(|_| AllocError)
}

/// How long a source can get that starts so; 2^64 - 1 where it is that or more.
fn cap_for(start: &Content, growth: Growth) -> u64
    ensures { result ≡ min (max 1 (max (size_of start.now) growth.longest + growth.growths)) (2 ^ 64 - 1) }
{
    size_of(start)
        .max(growth.longest)
        .saturating_add(growth.growths)
        .max(1)
}

fn size_of(content: &Content) -> u64
    ensures { result ≡ size_of content.now }
{
    match content {
        Content::Cell(_) => 1,
        Content::Vector(items) => items.len() as u64,
        Content::Map(entries) => entries.len() as u64,
    }
}

/// How the writers' edits can make a source longer.
fn growth_of(source: usize, writers: &[WriterDef]) -> Growth
    ensures longest { result.longest ≡ longest (all_edits_on source writers.now) }
    ensures growths { result.growths ≡ min (count_by is_growth (all_edits_on source writers.now)) (2 ^ 64 - 1) }
{
    let mut growth = Growth {
        longest: 0,
        growths: 0,
    };
    'writers: for writer in writers {
        growth = joined(growth, growth_by(source, writer.edits.as_slice()));
    }
    growth
}

fn joined(first: Growth, second: Growth) -> Growth
    ensures longest { result.longest ≡ max first.longest second.longest }
    ensures growths { result.growths ≡ min (first.growths + second.growths) (2 ^ 64 - 1) }
{
    Growth {
        longest: first.longest.max(second.longest),
        growths: first.growths.saturating_add(second.growths),
    }
}

/// How one writer's edits can.
fn growth_by(source: usize, edits: &[(usize, Edit)]) -> Growth
    ensures longest { result.longest ≡ longest (edits_on source edits.now) }
    ensures growths { result.growths ≡ min (count_by is_growth (edits_on source edits.now)) (2 ^ 64 - 1) }
{
    let mut growth = Growth {
        longest: 0,
        growths: 0,
    };
    'edits: for (on, edit) in edits {
        if *on == source {
            growth = joined(growth, growth_at(edit));
        }
    }
    growth
}

fn growth_at(edit: &Edit) -> Growth
    ensures longest { result.longest ≡ replaced_length edit.now }
    ensures growths { result.growths ≡ (if is_growth edit.now then 1 else 0) }
{
    Growth {
        longest: replaced_length(edit),
        growths: u64::from(is_growth(edit)),
    }
}

/// Whether an edit can make its source longer by one.
fn is_growth(edit: &Edit) -> bool
    ensures { result ≡ is_growth edit.now }
{
    matches!(
        edit,
        Edit::Vector(VecDiff::InsertAt { .. } | VecDiff::Push { .. }) | Edit::Put(_, _)
    )
}

/// How long a source is after an edit that replaces it whole.
fn replaced_length(edit: &Edit) -> u64
    ensures { result ≡ replaced_length edit.now }
{
    match edit {
        Edit::Vector(VecDiff::Replace { values }) => values.len() as u64,
        Edit::Load(entries) => entries.len() as u64,
        _ => 0,
    }
}

/// The rooms of the sources; 2^64 - 1 where one is that or more.
pub fn source_rooms(alloc: Global, script: &Script) -> Result<Rooms, NoMemory>
    ensures { let script = script.now in
        IfOk result (λ rooms. rooms ≡ map clipped (source_rooms script.writers 0 script.sources)) }
{
    let writers = script.writers.as_slice();
    let mut rooms = Items::new(alloc);
    'sources: for (number, _source) in script.sources.as_slice().iter().enumerate() {
        rooms.push(source_room(number, writers))?;
    }
    Ok(rooms)
}

pub fn source_room(source: usize, writers: &[WriterDef]) -> u64
    ensures { result ≡ clipped (sum (map (writer_room source) writers.now)) }
{
    let mut room: u64 = 0;
    'writers: for writer in writers {
        room = room.saturating_add(writer_room(source, writer));
    }
    room
}

fn writer_room(source: usize, writer: &WriterDef) -> u64
    ensures { result ≡ clipped (writer_room source writer.now) }
{
    match count_on(source, writer.edits.as_slice()) {
        0 => 0,
        count => count.saturating_add(1),
    }
}

/// How many edits are on a source.
#[tactic(auto, using(crate::proofs::Growing::length_edits_on))]
pub fn count_on(source: usize, edits: &[(usize, Edit)]) -> u64
    ensures { result ≡ length (edits_on source edits.now) }
{
    edits.iter().filter(|edit| edit.0 == source).count() as u64
}

/// The room of a share after these rooms; 2^64 - 1 where it is that or more.
pub fn share_room(alloc: Global, rooms: &[u64], signal: &SigExpr) -> Result<u64, NoMemory>
    ensures { (exact : List ℕ) → rooms.now ≡ map clipped exact
        → IfOk result (λ room. room ≡ clipped (share_room exact signal.now)) }
{
    let leaves = signal.leaves(alloc)?;
    Ok(room_after(rooms, leaves.as_slice()))
}

/// The room of a share with these leaves.
fn room_after(rooms: &[u64], leaves: &[usize]) -> u64
    ensures { (exact : List ℕ) → rooms.now ≡ map clipped exact
        → result ≡ clipped (2 + sum (map (λ source. get_or exact source 0) leaves.now)) }
{
    leaf_rooms(rooms, leaves).saturating_add(2)
}

fn leaf_rooms(rooms: &[u64], leaves: &[usize]) -> u64
    ensures { result ≡ clipped (sum (map (λ source. get_or rooms.now source 0) leaves.now)) }
{
    let mut total: u64 = 0;
    'leaves: for leaf in leaves {
        total = total.saturating_add(rooms.get(*leaf).copied().unwrap_or(0));
    }
    total
}
