ghost use Rattle.std.specs.Prelude.{◌≡◌, ◌++◌, ◌+◌, ◌<◌, ◌≤◌, ◌^◌, nat_lt, [], ◌∷◌, length, map, filter, IfOk, OnOk};
ghost use Rattle.std.specs.Vec.{vec_len, vec_capacity};
ghost use Rattle.sig_diff.specs.Differences.{IsLawful, applied};
ghost use Rattle.sig_ops.specs.Enumerating.{enumerate_gives, enumeration_next, enumeration_of, made, place_of, tagged_from};
ghost use Rattle.sig_ops.specs.laws.Enumerating.{EnumerateStep};
ghost use Rattle.sig_ops.specs.TagIndex.{entry_shifted, is_elsewhere, numbered, reindexed, shifted};

use crate::operators::VecOp;
use sig_diff::{Diffs, Items, NoMemory, Tagged, VecDiff, apply};
use std::alloc::Global;
use std::marker::Model;

/// The place of the element with a tag.
#[derive(Debug, Clone, Copy, PartialEq, Eq)]
struct TagPlace {
    tag: u128,
    place: u32,
}

/// The elements of a list with tags, which stay with their elements. Contracts see it as the elements with their tags, and the next tag.
///
/// It shows the list 4, 1 as 4 with the tag 0 and 1 with the tag 1. For a removal at 0 it then gives that removal, for a push of 9 a push of
/// 9 with the tag 2, and `place_of` finds the tag 1 at 0.
#[derive(Debug, Drop)]
pub struct EnumerateOp {
    elements: Items<Tagged>,
    next: u128,
    /// By rising tags.
    index: Vec<TagPlace>,
}

impl Model for EnumerateOp {
    ghost use Rattle.sig_ops.specs.Enumerating.{Enumeration};
    ghost use Rattle.sig_ops.specs.TagIndex.{IsIndexed};

    ghost Value = { Enumeration };

    ghost view = { λ op. record { elements = op.elements; next = op.next } };

    ghost invariant = { λ op. IsIndexed op.elements op.next op.index.items };
}

impl EnumerateOp {
    /// Not yet started. It takes no memory.
    pub fn new(alloc: Global) -> EnumerateOp
        ensures elements { result.elements ≡ [] }
        ensures next { result.next ≡ 0 }
    {
        EnumerateOp {
            elements: Items::new(alloc),
            next: 0,
            index: Vec::new(alloc),
        }
    }

    /// The elements of a list, with tags from 0 on.
    fn of(alloc: Global, values: &[i64]) -> Result<EnumerateOp, NoMemory>
        requires { length values.now ≤ 65536 }
        ensures { IfOk result (λ op. op ≡ enumeration_of values.now) }
    {
        let elements = tagged_from(alloc, 0, values)?;
        let mut index = Vec::with_capacity(alloc, values.len())?;
        number(&mut index, 0, values.len() as u32);
        Ok(EnumerateOp {
            elements,
            next: values.len() as u128,
            index,
        })
    }

    /// The place of the element with the tag, where there is one.
    pub fn place_of(&self, tag: u128) -> Option<u32>
        ensures { result ≡ place_of self.now.elements tag }
    {
        match self.index.binary_search_by_key(&tag, |entry| entry.tag) {
            Ok(at) => Some(self.index[at].place),
            Err(_) => None,
        }
    }

    /// Whether there are tags left for a step, whatever it makes. There are 2^128 of them.
    pub fn has_tags(&self) -> bool
        ensures { result ≡ nat_lt (self.now.next + 65536) (2 ^ 128) }
    {
        self.next < u128::MAX - 65535
    }

    /// Makes a difference of the list, which was given with tags as `given`.
    fn take(&mut self, diff: &VecDiff<i64>, given: &VecDiff<Tagged>) -> Result<(), NoMemory>
        requires step { EnumerateStep self.old diff.now }
        requires given { given.now ∷ [] ≡ enumerate_gives self.old diff.now }
        ensures { OnOk result (self.new ≡ enumeration_next self.old diff.now) }
    {
        let len = self.elements.len() as u32;
        let made = made(diff);
        self.index.reserve(made)?;
        apply(&mut self.elements, given)?;
        reindex(&mut self.index, self.next, len, diff);
        self.next += made as u128;
        Ok(())
    }
}

impl VecOp for EnumerateOp {
    ghost use Rattle.sig_ops.specs.Enumerating.{IsEnumeration, enumerate_gives, enumeration_next, enumeration_of};
    ghost use Rattle.sig_ops.specs.laws.Enumerating.{EnumerateStep, enumerate_leads, enumeration_stands, stands_next, may_step, no_longer, few_tags};
    ghost use Rattle.std.proofs.Common.{rules};

    type In = i64;

    type Out = Tagged;

    ghost can_start = { λ op. Unit {0} };

    ghost stands_for = { λ op xs. IsEnumeration op xs };

    ghost view = { λ op xs. op.elements };

    ghost tags = { λ op. op.next };

    ghost started = { λ op xs. enumeration_of xs };

    ghost can_step = { λ op diff. EnumerateStep op diff };

    ghost gives = { λ op diff. enumerate_gives op diff };

    ghost next = { λ op diff. enumeration_next op diff };

    ghost leads = { λ op xs diff stands lawful. enumerate_leads op xs diff stands lawful };

    ghost stands_at_start = { λ op xs can. enumeration_stands xs };

    ghost stands_after = { λ op xs diff stands lawful. stands_next op xs diff stands lawful };

    ghost steps_where_lawful = { λ op xs diff stands lawful short short_after few. may_step op xs diff stands lawful short_after few };

    ghost view_is_short = { λ op xs stands. no_longer op xs stands };

    ghost no_tags_at_start = { Prim.search rules };

    ghost few_tags_a_step = { λ op xs diff stands lawful short. few_tags op xs diff short };

    fn start(&mut self, items: &Items<i64>) -> Result<Items<Tagged>, NoMemory> {
        *self = EnumerateOp::of(items.alloc(), items.as_slice())?;
        self.elements.copy()
    }

    fn step(&mut self, diff: &VecDiff<i64>, given: &mut Diffs<Tagged>) -> Result<(), NoMemory> {
        let tagged = tagged(given.alloc(), self.elements.as_slice(), self.next, diff)?;
        self.take(diff, &tagged)?;
        given.push(tagged)
    }
}

/// The values with tags from this one on.
fn tagged_from(alloc: Global, first: u128, values: &[i64]) -> Result<Items<Tagged>, NoMemory>
    requires { first + length values.now < 2 ^ 128 }
    ensures { IfOk result (λ elements. elements ≡ tagged_from first values.now) }
{
    let mut elements = Items::new(alloc);
    let mut tag = first;
    'values: for value in values {
        elements.push(Tagged { tag, value: *value })?;
        tag += 1;
    }
    Ok(elements)
}

/// How many elements a difference makes.
fn made(diff: &VecDiff<i64>) -> usize
    ensures { result ≡ made diff.now }
{
    match diff {
        VecDiff::Replace { values } => values.len(),
        VecDiff::InsertAt { .. } | VecDiff::Push { .. } => 1,
        _ => 0,
    }
}

/// The difference with tags: elements that are made have the next ones, and one that is updated keeps its own.
fn tagged(
    alloc: Global,
    elements: &[Tagged],
    next: u128,
    diff: &VecDiff<i64>,
) -> Result<VecDiff<Tagged>, NoMemory>
    requires step { EnumerateStep (record { elements = elements.now; next = next }) diff.now }
    ensures { IfOk result (λ tagged. tagged ∷ [] ≡ enumerate_gives (record { elements = elements.now; next = next }) diff.now) }
{
    let tag = next;
    match diff {
        VecDiff::Replace { values } => Ok(VecDiff::Replace {
            values: tagged_from(alloc, next, values.as_slice())?,
        }),
        VecDiff::InsertAt { index, value } => Ok(VecDiff::InsertAt {
            index: *index,
            value: Tagged { tag, value: *value },
        }),
        VecDiff::UpdateAt { index, value } => Ok(VecDiff::UpdateAt {
            index: *index,
            value: Tagged {
                tag: elements[*index as usize].tag,
                value: *value,
            },
        }),
        VecDiff::RemoveAt { index } => Ok(VecDiff::RemoveAt { index: *index }),
        VecDiff::Move {
            old_index,
            new_index,
        } => Ok(VecDiff::Move {
            old_index: *old_index,
            new_index: *new_index,
        }),
        VecDiff::Push { value } => Ok(VecDiff::Push {
            value: Tagged { tag, value: *value },
        }),
        VecDiff::Pop => Ok(VecDiff::Pop),
        VecDiff::Clear => Ok(VecDiff::Clear),
    }
}

/// Changes the index of a list of this length by a difference of the list. There is room for what is made.
fn reindex(index: &mut Vec<TagPlace>, next: u128, len: u32, diff: &VecDiff<i64>)
    requires lawful { IsLawful diff.now len }
    requires room { vec_len index.old + made diff.now ≤ vec_capacity index.old }
    requires short { made diff.now ≤ 65536 }
    requires tags { next + 65536 < 2 ^ 128 }
    ensures { index.new.items ≡ reindexed next len diff.now index.old.items }
{
    match diff {
        VecDiff::Replace { values } => {
            index.clear();
            number(index, next, values.len() as u32);
        }
        VecDiff::InsertAt { index: place, .. } => {
            shift(index.as_mut_slice(), len, *place);
            index.push_reserved(TagPlace {
                tag: next,
                place: *place,
            });
        }
        VecDiff::UpdateAt { .. } => {}
        VecDiff::RemoveAt { index: place } => take_out(index, *place, len),
        VecDiff::Move {
            old_index,
            new_index,
        } => shift(index.as_mut_slice(), *old_index, *new_index),
        VecDiff::Push { .. } => index.push_reserved(TagPlace {
            tag: next,
            place: len,
        }),
        VecDiff::Pop => take_out(index, len - 1, len),
        VecDiff::Clear => index.clear(),
    }
}

/// Puts the entries of the first places into the empty index, with tags from this one on. There is room for them.
fn number(index: &mut Vec<TagPlace>, first: u128, count: u32)
    requires empty { vec_len index.old ≡ 0 }
    requires room { count ≤ vec_capacity index.old }
    requires tags { first + count < 2 ^ 128 }
    ensures { index.new.items ≡ numbered first count }
{
    'places: for place in 0..count {
        index.push_reserved(TagPlace {
            tag: first + place as u128,
            place,
        });
    }
}

/// The element at a place went: takes its entry out, and lowers the places behind it. The list had this length.
fn take_out(index: &mut Vec<TagPlace>, place: u32, len: u32)
    ensures { index.new.items ≡ map (entry_shifted place len) (filter (is_elsewhere place) index.old.items) }
{
    index.retain_mut(|entry| {
        let stays = entry.place != place;
        entry.place = shifted(entry.place, place, len);
        stays
    });
}

/// The element at one place went to another.
fn shift(index: &mut [TagPlace], from: u32, to: u32)
    ensures { index.new ≡ map (entry_shifted from to) index.old }
{
    'entries: for entry in index {
        *entry = TagPlace {
            tag: entry.tag,
            place: shifted(entry.place, from, to),
        };
    }
}

/// Where the element of a place is after the one at `from` went to `to`.
fn shifted(place: u32, from: u32, to: u32) -> u32
    ensures { result ≡ shifted from to place }
{
    if place == from {
        to
    } else if from < place && place <= to {
        place - 1
    } else if to <= place && place < from {
        place + 1
    } else {
        place
    }
}
