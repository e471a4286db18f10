ghost use Rattle.std.specs.Prelude.{◌≡◌, ◌++◌, ◌+◌, ◌<◌, ◌≤◌, ◌^◌, [], length, pos, remove, slice_index_or, IfOk, OnOk};
ghost use Rattle.std.specs.List.{flat_map};
ghost use Rattle.sig_diff.specs.Blocks.{offset};
ghost use Rattle.sig_diff.specs.Choosing.{chooses_same, list_for};
ghost use Rattle.sig_diff.specs.Differences.{IsLawful, applied};
ghost use Rattle.sig_flat.specs.Changed.{changed_blocks};
ghost use Rattle.sig_flat.specs.Flattening.{bank_gives, bank_next, begins, block, block_at, block_gives, block_moves, flattened, outer_gives, outer_next, part_at, same_moves, shifts};
ghost use Rattle.sig_flat.specs.Runs.{inserts, removes};
ghost use Rattle.sig_ops.specs.Sizes.{resized};
ghost use Rattle.sig_ops.specs.Leading.{LeadsTo};

use crate::runs::{give_further, inserts, pops, pushes, removes};
use sig_diff::{
    Diffs, Items, Lists, NoMemory, TryCopy, VecDiff, apply, chooses_same, class_of, list_for,
};
use std::alloc::Global;
use std::marker::Model;

/// For each element of an outer list the whole list of a bank that it chooses, by its class.
///
/// By the lists 7, 8 and 9 of two it shows the outer list 0, 1 as 7, 8, 9. For a push of 5 to the second list it then gives an insertion of
/// 5 at 3, and for a removal at 0 of the outer list two removals at 0.
#[derive(Debug, Drop)]
pub struct Flatten {
    outer: Items<i64>,
    parts: Vec<Items<i64>>,
}

impl Model for Flatten {
    ghost use Rattle.sig_flat.specs.Flattening.{Blocks};

    ghost Value = { Blocks };

    ghost view = { λ op. record { outer = op.outer; parts = op.parts.items } };
}

impl Flatten {
    /// The flattened list, not yet started. It takes no memory.
    pub fn new(alloc: Global) -> Flatten
        ensures outer { result.outer ≡ [] }
        ensures parts { result.parts ≡ [] }
    {
        Flatten {
            outer: Items::new(alloc),
            parts: Vec::new(alloc),
        }
    }

    /// All blocks, for the outer list and the bank from then on.
    pub fn start(&mut self, outer: &Items<i64>, bank: &Lists) -> Result<Items<i64>, NoMemory>
        requires { length outer.now ≤ 65536 }
        ensures view { IfOk result (λ items. items ≡ flattened (record { outer = outer.now; parts = bank.now })) }
        ensures state { OnOk result (self.new ≡ record { outer = outer.now; parts = bank.now }) }
    {
        self.outer = outer.copy()?;
        self.parts = bank.copy()?.into_vec();
        joined(outer.alloc(), bank.as_slice(), outer.as_slice())
    }

    /// How many lists the bank has.
    pub fn part_count(&self) -> usize
        ensures { result ≡ length self.now.parts }
    {
        self.parts.len()
    }

    /// Adds what is given for a difference of the outer list.
    pub fn step_list(&mut self, diff: &VecDiff<i64>, given: &mut Diffs<i64>) -> Result<(), NoMemory>
        requires lawful { IsLawful diff.now (length self.old.outer) }
        requires short { length (flattened self.old) ≤ 65536 }
        requires short_after { length (flattened (outer_next self.old diff.now)) ≤ 65536 }
        requires short_outer { length self.old.outer ≤ 65536 }
        requires short_outer_after { length (applied self.old.outer diff.now) ≤ 65536 }
        ensures given { OnOk result (given.new ≡ given.old ++ outer_gives self.old diff.now) }
        ensures state { OnOk result (self.new ≡ outer_next self.old diff.now) }
        ensures law { LeadsTo (flattened self.old) (outer_gives self.old diff.now) (flattened (outer_next self.old diff.now)) }
    {
        self.give(diff, given)?;
        apply(&mut self.outer, diff)
    }

    /// Adds what is given for a difference of the list at a place of the bank.
    pub fn step_bank(
        &mut self,
        child: usize,
        diff: &VecDiff<i64>,
        given: &mut Diffs<i64>,
    ) -> Result<(), NoMemory>
        requires child { child < length self.old.parts }
        requires lawful { IsLawful diff.now (length (part_at self.old child)) }
        requires short { length (flattened self.old) ≤ 65536 }
        requires short_after { length (flattened (bank_next self.old child diff.now)) ≤ 65536 }
        requires short_part { length (part_at self.old child) ≤ 65536 }
        ensures given { OnOk result (given.new ≡ given.old ++ bank_gives self.old child diff.now) }
        ensures state { OnOk result (self.new ≡ bank_next self.old child diff.now) }
        ensures law { LeadsTo (flattened self.old) (bank_gives self.old child diff.now) (flattened (bank_next self.old child diff.now)) }
    {
        let old_len = self.part_len(child);
        self.change_part(child, diff)?;
        give_blocks(
            self.parts.as_slice(),
            self.outer.as_slice(),
            child,
            old_len,
            diff,
            given,
        )
    }

    /// How long the list at a place of the bank is.
    fn part_len(&self, child: usize) -> u32
        requires child { child < length self.now.parts }
        requires short { length (part_at self.now child) ≤ 65536 }
        ensures { result ≡ length (part_at self.now child) }
    {
        self.parts[child].len() as u32
    }

    /// The list at a place of the bank takes a difference.
    fn change_part(&mut self, child: usize, diff: &VecDiff<i64>) -> Result<(), NoMemory>
        requires child { child < length self.old.parts }
        requires lawful { IsLawful diff.now (length (part_at self.old child)) }
        ensures { OnOk result (self.new ≡ bank_next self.old child diff.now) }
    {
        apply(&mut self.parts[child], diff)
    }

    /// Adds what is given for a difference that the outer list is about to take.
    fn give(&self, diff: &VecDiff<i64>, given: &mut Diffs<i64>) -> Result<(), NoMemory>
        requires lawful { IsLawful diff.now (length self.now.outer) }
        requires short { length (flattened self.now) ≤ 65536 }
        requires short_after { length (flattened (outer_next self.now diff.now)) ≤ 65536 }
        ensures { OnOk result (given.new ≡ given.old ++ outer_gives self.now diff.now) }
    {
        match diff {
            VecDiff::Replace { values } => self.give_all(values.as_slice(), given),
            VecDiff::InsertAt { index, value } => {
                inserts(self.begins(*index as usize), self.block(*value), given)
            }
            VecDiff::UpdateAt { index, value } => self.exchange(*index as usize, *value, given),
            VecDiff::RemoveAt { index } => {
                let index = *index as usize;
                removes(self.block_len(index), self.begins(index), given)
            }
            VecDiff::Move {
                old_index,
                new_index,
            } => self.move_block(*old_index as usize, *new_index as usize, given),
            VecDiff::Push { value } => pushes(self.block(*value), given),
            VecDiff::Pop => pops(self.block_len(self.outer.len() - 1), given),
            VecDiff::Clear => given.push(VecDiff::Clear),
        }
    }

    /// All blocks of a new outer list come in place of the old ones.
    fn give_all(&self, outer: &[i64], given: &mut Diffs<i64>) -> Result<(), NoMemory>
        ensures { OnOk result (given.new ≡ given.old ++ outer_gives self.now (VecDiff.Replace outer.now)) }
    {
        let values = joined(given.alloc(), self.parts.as_slice(), outer)?;
        given.push(VecDiff::Replace { values })
    }

    /// The block of the element at a place goes, and that of another comes, where that isn't the same.
    fn exchange(&self, index: usize, value: i64, given: &mut Diffs<i64>) -> Result<(), NoMemory>
        requires index { index < length self.now.outer }
        requires short { length (flattened self.now) ≤ 65536 }
        requires short_after { length (block self.now value) ≤ 65536 }
        ensures { OnOk result (given.new ≡ given.old ++ outer_gives self.now (VecDiff.UpdateAt index value)) }
    {
        if self.keeps_block(index, value) {
            Ok(())
        } else {
            self.give_other(index, value, given)
        }
    }

    /// Whether another number has the block of the element at a place. An empty bank has no other.
    fn keeps_block(&self, index: usize, value: i64) -> bool
        requires { index < length self.now.outer }
        ensures { result ≡ chooses_same (length self.now.parts) (slice_index_or self.now.outer index (pos 0)) value }
    {
        chooses_same(self.parts.len(), self.outer.as_slice()[index], value)
    }

    /// The block of the element at a place goes, and that of another number comes.
    fn give_other(&self, index: usize, value: i64, given: &mut Diffs<i64>) -> Result<(), NoMemory>
        requires index { index < length self.now.outer }
        requires short { length (flattened self.now) ≤ 65536 }
        requires short_after { length (block self.now value) ≤ 65536 }
        ensures { OnOk result (given.new ≡ given.old
            ++ (removes (length (block_at self.now index)) (begins self.now index) ++ inserts (begins self.now index) (block self.now value))) }
    {
        let place = self.begins(index);
        removes(self.block_len(index), place, given)?;
        inserts(place, self.block(value), given)
    }

    /// The block of the element at one place goes to where its new place begins.
    fn move_block(
        &self,
        old_index: usize,
        new_index: usize,
        given: &mut Diffs<i64>,
    ) -> Result<(), NoMemory>
        requires old_index { old_index < length self.now.outer }
        requires new_index { new_index < length self.now.outer }
        requires short { length (flattened self.now) ≤ 65536 }
        ensures { OnOk result (given.new ≡ given.old ++ outer_gives self.now (VecDiff.Move old_index new_index)) }
    {
        let count = self.block_len(old_index);
        let from = self.begins(old_index);
        let to = self.begins_without(old_index, new_index);
        block_moves(count, from, to, given)
    }

    /// The block of an element.
    fn block(&self, number: i64) -> &[i64]
        ensures { result.now ≡ block self.now number }
    {
        list_for(self.parts.as_slice(), number)
    }

    /// How long the block of the element at a place is.
    fn block_len(&self, index: usize) -> u32
        requires index { index < length self.now.outer }
        requires short { length (flattened self.now) ≤ 65536 }
        ensures len { result ≡ length (block_at self.now index) }
        ensures within { result + begins self.now index ≤ length (flattened self.now) }
    {
        self.block(self.outer.as_slice()[index]).len() as u32
    }

    /// Where the block of the element at a place begins.
    fn begins(&self, index: usize) -> u32
        requires index { index ≤ length self.now.outer }
        requires short { length (flattened self.now) ≤ 65536 }
        ensures place { result ≡ begins self.now index }
        ensures within { result ≤ length (flattened self.now) }
    {
        joined_len(self.parts.as_slice(), &self.outer.as_slice()[..index])
    }

    /// Where the new place begins in the list without the element at the old one.
    fn begins_without(&self, old_index: usize, new_index: usize) -> u32
        requires old_index { old_index < length self.now.outer }
        requires new_index { new_index < length self.now.outer }
        requires short { length (flattened self.now) ≤ 65536 }
        ensures place { result ≡ offset (block self.now) (remove self.now.outer old_index) new_index }
        ensures within { result ≤ length (flattened self.now) }
    {
        if new_index <= old_index {
            self.begins(new_index)
        } else {
            self.begins(new_index) + self.block_len(new_index) - self.block_len(old_index)
        }
    }
}

/// Adds what the blocks of a list at a place of the bank give, after it took a difference. It had this length before.
fn give_blocks(
    parts: &[Items<i64>],
    outer: &[i64],
    child: usize,
    old_len: u32,
    diff: &VecDiff<i64>,
    given: &mut Diffs<i64>,
) -> Result<(), NoMemory>
    requires child { child < length parts.now }
    requires lawful { IsLawful diff.now old_len }
    requires changed { length (slice_index_or parts.now child []) ≡ resized old_len diff.now }
    requires short { length (flat_map (list_for parts.now) outer.now) ≤ 65536 }
    requires short_part { old_len ≤ 65536 }
    ensures { OnOk result (given.new ≡ given.old ++ changed_blocks parts.now child old_len diff.now 0 outer.now) }
{
    let mut place = 0;
    'elements: for element in outer {
        if class_of(*element, parts.len()) == child {
            give_block(old_len, place, diff, given)?;
        }
        place += list_for(parts, *element).len() as u32;
    }
    Ok(())
}

/// Adds what a block gives for a difference, which was so long before it and begins at a place.
#[tactic(auto, using(crate::proofs::Further::last_place_within))]
fn give_block(
    old_len: u32,
    place: u32,
    diff: &VecDiff<i64>,
    given: &mut Diffs<i64>,
) -> Result<(), NoMemory>
    requires lawful { IsLawful diff.now old_len }
    requires short { old_len ≤ 65536 }
    requires short_after { place + resized old_len diff.now ≤ 65536 }
    ensures { OnOk result (given.new ≡ given.old ++ block_gives old_len place diff.now) }
{
    match diff {
        VecDiff::Replace { values } => {
            removes(old_len, place, given)?;
            inserts(place, values.as_slice(), given)
        }
        VecDiff::InsertAt { .. }
        | VecDiff::UpdateAt { .. }
        | VecDiff::RemoveAt { .. }
        | VecDiff::Move { .. } => give_further(place, diff, given),
        VecDiff::Push { value } => given.push(VecDiff::InsertAt {
            index: place + old_len,
            value: *value,
        }),
        VecDiff::Pop => given.push(VecDiff::RemoveAt {
            index: place + old_len - 1,
        }),
        VecDiff::Clear => removes(old_len, place, given),
    }
}

/// The blocks of the elements, one behind another.
fn joined(alloc: Global, parts: &[Items<i64>], outer: &[i64]) -> Result<Items<i64>, NoMemory>
    ensures { IfOk result (λ items. items ≡ flat_map (list_for parts.now) outer.now) }
{
    let mut items = Vec::new(alloc);
    'elements: for element in outer {
        items.extend_from_slice(list_for(parts, *element))?;
    }
    Ok(Items::from_vec(items))
}

/// How long the blocks of the elements are together.
fn joined_len(parts: &[Items<i64>], outer: &[i64]) -> u32
    requires { length (flat_map (list_for parts.now) outer.now) ≤ 65536 }
    ensures { result ≡ length (flat_map (list_for parts.now) outer.now) }
{
    let mut len = 0;
    'elements: for element in outer {
        len += list_for(parts, *element).len() as u32;
    }
    len
}

/// Adds the differences by which a block with so many elements moves from a place to another, which is counted without it.
fn block_moves(count: u32, from: u32, to: u32, given: &mut Diffs<i64>) -> Result<(), NoMemory>
    requires count { count ≤ 65536 }
    requires from { from ≤ 65536 }
    requires to { to ≤ 65536 }
    ensures { OnOk result (given.new ≡ given.old ++ block_moves count from to) }
{
    if to == from {
        Ok(())
    } else if from < to {
        same_moves(count, from, to + count - 1, given)
    } else {
        shifts(count, from, to, given)
    }
}

/// Adds so many moves, all from one place to another.
fn same_moves(
    count: u32,
    old_index: u32,
    new_index: u32,
    given: &mut Diffs<i64>,
) -> Result<(), NoMemory>
    ensures { OnOk result (given.new ≡ given.old ++ same_moves count old_index new_index) }
{
    'moved: for _ in 0..count {
        given.push(VecDiff::Move {
            old_index,
            new_index,
        })?;
    }
    Ok(())
}

/// Adds so many moves, each from and to the next places.
fn shifts(count: u32, from: u32, to: u32, given: &mut Diffs<i64>) -> Result<(), NoMemory>
    requires from { from + count < 2 ^ 32 }
    requires to { to + count < 2 ^ 32 }
    ensures { OnOk result (given.new ≡ given.old ++ shifts count from to) }
{
    'moved: for place in 0..count {
        given.push(VecDiff::Move {
            old_index: from + place,
            new_index: to + place,
        })?;
    }
    Ok(())
}
