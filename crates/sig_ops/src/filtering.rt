ghost use Rattle.std.specs.Prelude.{◌≡◌, ◌++◌, ◌<◌, ◌≤◌, [], length, filter, remove, IfOk, OnOk};
ghost use Rattle.sig_diff.specs.Differences.{IsLawful};
ghost use Rattle.sig_diff.specs.Passing.{passes_at, passing_before};
ghost use Rattle.sig_ops.specs.Tables.{if_so, filter_gives};

use crate::operators::VecOp;
use sig_diff::{Diffs, Items, NoMemory, Tester, VecDiff, apply, passing};
use std::alloc::Global;
use std::marker::Model;

/// The items that pass a test. Contracts see it as its test and the list that it stands for.
///
/// By "at least 3" it shows the list 4, 1, 3 as 4, 3. For an update of 5 at 1 it then gives an insertion of 5 at 1, and for a push of 2
/// nothing.
#[derive(Debug, Drop)]
pub struct FilterOp<T, P> {
    tester: P,
    items: Items<T>,
}

impl<T, P> Model for FilterOp<T, P> {
    ghost use Rattle.sig_ops.specs.Filtering.{Filter};

    ghost Value = { Filter P T };

    ghost view = { λ op. record { tester = op.tester; items = op.items } };
}

impl<T, P> FilterOp<T, P> {
    /// The filter by a test, not yet started. It takes no memory.
    pub fn new(alloc: Global, tester: P) -> FilterOp<T, P>
        ensures tester { result.tester ≡ tester }
        ensures items { result.items ≡ [] }
    {
        FilterOp {
            tester,
            items: Items::new(alloc),
        }
    }
}

impl<T: Copy + Eq, P: Tester<T>> VecOp for FilterOp<T, P> {
    ghost use Rattle.std.specs.Prelude.{◌≡◌, filter, refl};
    ghost use Rattle.std.proofs.Common.{rules, ap};
    ghost use Rattle.sig_diff.specs.Differences.{applied};
    ghost use Rattle.sig_ops.specs.Filtering.{FilterStep, filter_next};
    ghost use Rattle.sig_ops.specs.Tables.{filter_gives};
    ghost use Rattle.sig_ops.specs.laws.Filtering.{filter_leads, filter_is_short, filter_may_step};

    type In = T;

    type Out = T;

    ghost can_start = { λ op. P.can_call op.tester };

    ghost stands_for = { λ op xs. P.can_call op.tester × (op.items ≡ xs) };

    ghost view = { λ op xs. filter (P.passes op.tester) xs };

    ghost tags = { λ op. 0 };

    ghost started = { λ op xs. record { tester = op.tester; items = xs } };

    ghost can_step = { λ op diff. P.can_call op.tester × FilterStep op diff };

    ghost gives = { λ op diff. filter_gives (P.passes op.tester) op.items diff };

    ghost next = { λ op diff. filter_next op diff };

    ghost leads = { λ op xs diff stands lawful. rw stands.1 (filter_leads (P.passes op.tester) xs diff lawful) };

    ghost stands_at_start = { λ op xs can. (can, refl) };

    ghost stands_after = { λ op xs diff stands lawful. (stands.0, ap (λ items. applied items diff) stands.1) };

    ghost steps_where_lawful = { λ op xs diff stands lawful short short_after few.
        (stands.0, filter_may_step op xs diff stands.1 lawful short short_after) };

    ghost view_is_short = { λ op xs stands. filter_is_short (P.passes op.tester) xs };

    ghost no_tags_at_start = { Prim.search rules };

    ghost few_tags_a_step = { Prim.search rules };

    fn start(&mut self, items: &Items<T>) -> Result<Items<T>, NoMemory> {
        self.items = items.copy()?;
        passing(items.alloc(), &self.tester, items.as_slice())
    }

    fn step(&mut self, diff: &VecDiff<T>, given: &mut Diffs<T>) -> Result<(), NoMemory> {
        filtered(&self.tester, self.items.as_slice(), diff, given)?;
        apply(&mut self.items, diff)
    }
}

/// Whether the item at a place passes.
fn passes_at<T: Copy, P: Tester<T>>(tester: &P, items: &[T], index: usize) -> bool
    requires can_call { P.can_call tester.now }
    requires index { index < length items.now }
    ensures { result ≡ passes_at (P.passes tester.now) items.now index }
{
    tester.call(items[index])
}

/// How many of the items before a place pass.
fn passing_before<T: Copy, P: Tester<T>>(tester: &P, items: &[T], index: u32) -> u32
    requires can_call { P.can_call tester.now }
    requires index { index ≤ length items.now }
    ensures result { result ≡ passing_before (P.passes tester.now) items.now index }
    ensures within { result ≤ index }
{
    let mut count = 0;
    'items: for item in &items[..index as usize] {
        if tester.call(*item) {
            count += 1;
        }
    }
    count
}

/// How many of the items before the old place pass, and how many before the new place in the list without the
/// item at the old one.
#[tactic(auto, using(crate::proofs::Places::passing_before_left_out))]
fn places<T: Copy, P: Tester<T>>(
    tester: &P,
    items: &[T],
    old_index: u32,
    new_index: u32,
) -> (u32, u32)
    requires can_call { P.can_call tester.now }
    requires old_index { old_index < length items.now }
    requires new_index { new_index < length items.now }
    ensures old_place { result.0 ≡ passing_before (P.passes tester.now) items.now old_index }
    ensures new_place { result.1 ≡ passing_before (P.passes tester.now) (remove items.now old_index) new_index }
{
    if new_index <= old_index {
        let before = passing_before(tester, items, new_index);
        let between = passing_before(tester, &items[new_index as usize..], old_index - new_index);
        (before + between, before)
    } else {
        let before = passing_before(tester, items, old_index);
        let behind = &items[old_index as usize + 1..];
        (
            before,
            before + passing_before(tester, behind, new_index - old_index),
        )
    }
}

/// Adds what a filter gives for a difference of its list.
pub fn filtered<T: Copy, P: Tester<T>>(
    tester: &P,
    items: &[T],
    diff: &VecDiff<T>,
    given: &mut Diffs<T>,
) -> Result<(), NoMemory>
    requires can_call { P.can_call tester.now }
    requires lawful { IsLawful diff.now (length items.now) }
    ensures { OnOk result (given.new ≡ given.old ++ filter_gives (P.passes tester.now) items.now diff.now) }
{
    match diff {
        VecDiff::Replace { values } => {
            let values = passing(given.alloc(), tester, values.as_slice())?;
            given.push(VecDiff::Replace { values })
        }
        VecDiff::InsertAt { index, value } => inserted(tester, items, *index, *value, given),
        VecDiff::UpdateAt { index, value } => updated(tester, items, *index, *value, given),
        VecDiff::RemoveAt { index } => removed(tester, items, *index, given),
        VecDiff::Move {
            old_index,
            new_index,
        } => moved(tester, items, *old_index, *new_index, given),
        VecDiff::Push { value } => pushed(tester, *value, given),
        VecDiff::Pop => popped(tester, items, given),
        VecDiff::Clear => given.push(VecDiff::Clear),
    }
}

fn inserted<T: Copy, P: Tester<T>>(
    tester: &P,
    items: &[T],
    index: u32,
    value: T,
    given: &mut Diffs<T>,
) -> Result<(), NoMemory>
    requires can_call { P.can_call tester.now }
    requires index { index ≤ length items.now }
    ensures { OnOk result (given.new ≡ given.old ++ filter_gives (P.passes tester.now) items.now (VecDiff.InsertAt index value)) }
{
    if !tester.call(value) {
        return Ok(());
    }
    let index = passing_before(tester, items, index);
    given.push(VecDiff::InsertAt { index, value })
}

fn updated<T: Copy, P: Tester<T>>(
    tester: &P,
    items: &[T],
    index: u32,
    value: T,
    given: &mut Diffs<T>,
) -> Result<(), NoMemory>
    requires can_call { P.can_call tester.now }
    requires index { index < length items.now }
    ensures { OnOk result (given.new ≡ given.old ++ filter_gives (P.passes tester.now) items.now (VecDiff.UpdateAt index value)) }
{
    let old = passes_at(tester, items, index as usize);
    let index = passing_before(tester, items, index);
    match (old, tester.call(value)) {
        (true, true) => given.push(VecDiff::UpdateAt { index, value }),
        (false, true) => given.push(VecDiff::InsertAt { index, value }),
        (true, false) => given.push(VecDiff::RemoveAt { index }),
        (false, false) => Ok(()),
    }
}

fn removed<T: Copy, P: Tester<T>>(
    tester: &P,
    items: &[T],
    index: u32,
    given: &mut Diffs<T>,
) -> Result<(), NoMemory>
    requires can_call { P.can_call tester.now }
    requires index { index < length items.now }
    ensures { OnOk result (given.new ≡ given.old ++ filter_gives (P.passes tester.now) items.now (VecDiff.RemoveAt index)) }
{
    if !passes_at(tester, items, index as usize) {
        return Ok(());
    }
    let index = passing_before(tester, items, index);
    given.push(VecDiff::RemoveAt { index })
}

fn moved<T: Copy, P: Tester<T>>(
    tester: &P,
    items: &[T],
    from: u32,
    to: u32,
    given: &mut Diffs<T>,
) -> Result<(), NoMemory>
    requires can_call { P.can_call tester.now }
    requires from { from < length items.now }
    requires to { to < length items.now }
    ensures { OnOk result (given.new ≡ given.old ++ filter_gives (P.passes tester.now) items.now (VecDiff.Move from to)) }
{
    if !passes_at(tester, items, from as usize) {
        return Ok(());
    }
    let (old_index, new_index) = places(tester, items, from, to);
    if old_index == new_index {
        return Ok(());
    }
    given.push(VecDiff::Move {
        old_index,
        new_index,
    })
}

fn pushed<T: Copy, P: Tester<T>>(tester: &P, value: T, given: &mut Diffs<T>) -> Result<(), NoMemory>
    requires can_call { P.can_call tester.now }
    ensures { OnOk result (given.new ≡ given.old ++ if_so (P.passes tester.now value) (VecDiff.Push value)) }
{
    if tester.call(value) {
        given.push(VecDiff::Push { value })
    } else {
        Ok(())
    }
}

fn popped<T: Copy, P: Tester<T>>(
    tester: &P,
    items: &[T],
    given: &mut Diffs<T>,
) -> Result<(), NoMemory>
    requires can_call { P.can_call tester.now }
    requires some { 0 < length items.now }
    ensures { OnOk result (given.new ≡ given.old ++ filter_gives (P.passes tester.now) items.now VecDiff.Pop) }
{
    if passes_at(tester, items, items.len() - 1) {
        given.push(VecDiff::Pop)
    } else {
        Ok(())
    }
}
