ghost use Rattle.std.specs.Prelude.{◌≡◌, ◌++◌, ◌<◌, ◌≤◌, [], ◌∷◌, length, remove, OnOk};
ghost use Rattle.sig_diff.specs.Differences.{IsLawful, applied};
ghost use Rattle.sig_diff.specs.Replaying.{replayed};
ghost use Rattle.sig_diff.specs.Sorting.{below, by_key, in_order, not_above};
ghost use Rattle.std.specs.List.Sorted.{IsSorted};
ghost use Rattle.sig_sort.specs.Sorting.{changes, comes, element, exchange, rank, sorted_by, sorted_gives};

use sig_diff::{Diffs, Items, Mapper, NoMemory, VecDiff, apply, in_order};
use sig_ops::VecOp;
use std::alloc::Global;
use std::cmp::Ordering;
use std::marker::Model;

/// The numbers in the order of their images. Contracts see it as its function and the list that it stands for.
///
/// By the remainder of 3 it shows the list 4, 1, 3 as 3, 1, 4. For a push of 2 it then gives an insertion of 2 at 3.
#[derive(Debug, Drop)]
pub struct SortedOp<M: Mapper<i64, i64>> {
    mapper: M,
    items: Items<i64>,
    /// The items in order.
    sorted: Items<i64>,
}

impl<M: Mapper<i64, i64>> Model for SortedOp<M> {
    ghost use Rattle.std.specs.Prelude.{◌≡◌};
    ghost use Rattle.sig_diff.specs.Sorting.{by_key, in_order};
    ghost use Rattle.sig_sort.specs.Sorting.{SortedList};

    ghost Value = { SortedList M };

    ghost view = { λ op. record { mapper = op.mapper; items = op.items } };

    ghost invariant = { λ op. op.sorted ≡ in_order (by_key (M.maps op.mapper)) op.items };
}

impl<M: Mapper<i64, i64>> SortedOp<M> {
    /// The sorted view by a function, not yet started. It takes no memory.
    pub fn new(alloc: Global, mapper: M) -> SortedOp<M>
        ensures mapper { result.mapper ≡ mapper }
        ensures items { result.items ≡ [] }
    {
        SortedOp {
            mapper,
            items: Items::new(alloc),
            sorted: Items::new(alloc),
        }
    }
}

impl<M: Mapper<i64, i64>> VecOp for SortedOp<M> {
    ghost use Rattle.std.specs.Prelude.{◌≡◌, refl};
    ghost use Rattle.std.proofs.Common.{rules, ap};
    ghost use Rattle.sig_diff.specs.Differences.{applied};
    ghost use Rattle.sig_diff.specs.Sorting.{by_key, in_order};
    ghost use Rattle.sig_sort.specs.Sorting.{SortedStep, sorted_gives, sorted_next, sorted_of};
    ghost use Rattle.sig_sort.specs.laws.Sorting.{sorted_leads, sorted_is_short, sorted_may_step};

    type In = i64;

    type Out = i64;

    ghost can_start = { λ op. M.can_call op.mapper };

    ghost stands_for = { λ op xs. M.can_call op.mapper × (op.items ≡ xs) };

    ghost view = { λ op xs. in_order (by_key (M.maps op.mapper)) xs };

    ghost tags = { λ op. 0 };

    ghost started = { λ op xs. sorted_of op.mapper xs };

    ghost can_step = { λ op diff. M.can_call op.mapper × SortedStep op diff };

    ghost gives = { λ op diff. sorted_gives (M.maps op.mapper) op.items diff };

    ghost next = { λ op diff. sorted_next op diff };

    ghost leads = { λ op xs diff stands lawful. rw stands.1 (sorted_leads (M.maps op.mapper) xs diff lawful) };

    ghost stands_at_start = { λ op xs can. (can, refl) };

    ghost stands_after = { λ op xs diff stands lawful. (stands.0, ap (λ items. applied items diff) stands.1) };

    ghost steps_where_lawful = { λ op xs diff stands lawful short short_after few.
        (stands.0, sorted_may_step op xs diff stands.1 lawful short) };

    ghost view_is_short = { λ op xs stands. sorted_is_short (M.maps op.mapper) xs };

    ghost no_tags_at_start = { Prim.search rules };

    ghost few_tags_a_step = { Prim.search rules };

    fn start(&mut self, items: &Items<i64>) -> Result<Items<i64>, NoMemory> {
        let kept = items.copy()?;
        let sorted = in_order(&self.mapper, items.copy()?);
        let shown = sorted.copy()?;
        self.items = kept;
        self.sorted = sorted;
        Ok(shown)
    }

    fn step(&mut self, diff: &VecDiff<i64>, given: &mut Diffs<i64>) -> Result<(), NoMemory> {
        if let Err(error) = follow(&self.mapper, &mut self.items, &mut self.sorted, diff, given) {
            // One list may have taken the difference, and the other not.
            self.items.clear();
            self.sorted.clear();
            return Err(error);
        }
        Ok(())
    }
}

/// Adds what the sorted view gives for a difference, which both lists take.
fn follow<M: Mapper<i64, i64>>(
    mapper: &M,
    items: &mut Items<i64>,
    numbers: &mut Items<i64>,
    diff: &VecDiff<i64>,
    given: &mut Diffs<i64>,
) -> Result<(), NoMemory>
    requires can_call { M.can_call mapper.now }
    requires lawful { IsLawful diff.now (length items.old) }
    requires short { length items.old ≤ 65536 }
    requires in_order { numbers.old ≡ in_order (by_key (M.maps mapper.now)) items.old }
    ensures given { OnOk result (given.new ≡ given.old ++ sorted_gives (M.maps mapper.now) items.old diff.now) }
    ensures items { OnOk result (items.new ≡ applied items.old diff.now) }
    ensures in_order { OnOk result (numbers.new ≡ in_order (by_key (M.maps mapper.now)) items.new) }
{
    sorted(mapper, items.as_slice(), numbers, diff, given)?;
    apply(items, diff)
}

/// How a number stands to another by their images, and then by themselves.
fn order<M: Mapper<i64, i64>>(mapper: &M, left: i64, right: i64) -> Ordering
    requires { M.can_call mapper.now }
    ensures { result ≡ by_key (M.maps mapper.now) left right }
{
    let images = mapper.call(left).cmp(&mapper.call(right));
    images.then(left.cmp(&right))
}

/// How many of the sorted numbers are below the value.
fn below<M: Mapper<i64, i64>>(mapper: &M, numbers: &[i64], value: i64) -> u32
    requires can_call { M.can_call mapper.now }
    requires short { length numbers.now ≤ 65536 }
    requires ascend { IsSorted (by_key (M.maps mapper.now)) numbers.now }
    ensures { result ≡ below (by_key (M.maps mapper.now)) value numbers.now }
{
    numbers.partition_point(|number| order(mapper, *number, value).is_lt()) as u32
}

/// How many of the sorted numbers aren't above the value.
fn not_above<M: Mapper<i64, i64>>(mapper: &M, numbers: &[i64], value: i64) -> u32
    requires can_call { M.can_call mapper.now }
    requires short { length numbers.now ≤ 65536 }
    requires ascend { IsSorted (by_key (M.maps mapper.now)) numbers.now }
    ensures place { result ≡ not_above (by_key (M.maps mapper.now)) value numbers.now }
    ensures within { result ≤ length numbers.now }
{
    numbers.partition_point(|number| order(mapper, *number, value).is_le()) as u32
}

/// How many of the sorted numbers without the one at the index aren't above the value.
fn not_above_without<M: Mapper<i64, i64>>(
    mapper: &M,
    numbers: &[i64],
    index: u32,
    value: i64,
) -> u32
    requires can_call { M.can_call mapper.now }
    requires index { index < length numbers.now }
    requires short { length numbers.now ≤ 65536 }
    requires ascend { IsSorted (by_key (M.maps mapper.now)) numbers.now }
    ensures place { result ≡ not_above (by_key (M.maps mapper.now)) value (remove numbers.now index) }
    ensures within { result ≤ length (remove numbers.now index) }
{
    let place = not_above(mapper, numbers, value);
    if order(mapper, numbers[index as usize], value).is_le() {
        place - 1
    } else {
        place
    }
}

/// Where the item at the index stands among the items in order.
fn rank<M: Mapper<i64, i64>>(mapper: &M, items: &[i64], numbers: &[i64], index: u32) -> u32
    requires can_call { M.can_call mapper.now }
    requires index { index < length items.now }
    requires short { length numbers.now ≤ 65536 }
    requires ascend { IsSorted (by_key (M.maps mapper.now)) numbers.now }
    requires in_order { numbers.now ≡ in_order (by_key (M.maps mapper.now)) items.now }
    ensures place { result ≡ rank (M.maps mapper.now) numbers.now (element (M.maps mapper.now) items.now index) }
    ensures within { result < length numbers.now }
{
    below(mapper, numbers, items[index as usize])
}

/// Adds a difference of the list in order, and makes it.
fn give(
    numbers: &mut Items<i64>,
    diff: VecDiff<i64>,
    given: &mut Diffs<i64>,
) -> Result<(), NoMemory>
    requires { IsLawful diff (length numbers.old) }
    ensures given { OnOk result (given.new ≡ given.old ++ diff ∷ []) }
    ensures numbers { OnOk result (numbers.new ≡ applied numbers.old diff) }
{
    apply(numbers, &diff)?;
    given.push(diff)
}

/// A number comes into the list in order.
fn come<M: Mapper<i64, i64>>(
    mapper: &M,
    numbers: &mut Items<i64>,
    value: i64,
    given: &mut Diffs<i64>,
) -> Result<(), NoMemory>
    requires can_call { M.can_call mapper.now }
    requires short { length numbers.old ≤ 65536 }
    requires ascend { IsSorted (by_key (M.maps mapper.now)) numbers.old }
    ensures given { OnOk result (given.new ≡ given.old ++ comes (M.maps mapper.now) numbers.old value ∷ []) }
    ensures numbers { OnOk result (numbers.new ≡ replayed numbers.old (comes (M.maps mapper.now) numbers.old value ∷ [])) }
{
    let index = not_above(mapper, numbers.as_slice(), value);
    give(numbers, VecDiff::InsertAt { index, value }, given)
}

/// The number at the index goes, and another comes in at this place of the others.
fn exchange(
    numbers: &mut Items<i64>,
    index: u32,
    place: u32,
    value: i64,
    given: &mut Diffs<i64>,
) -> Result<(), NoMemory>
    requires index { index < length numbers.old }
    requires place { place ≤ length (remove numbers.old index) }
    ensures given { OnOk result (given.new ≡ given.old ++ exchange index place value) }
    ensures numbers { OnOk result (numbers.new ≡ replayed numbers.old (exchange index place value)) }
{
    if place == index {
        return give(numbers, VecDiff::UpdateAt { index, value }, given);
    }
    give(numbers, VecDiff::RemoveAt { index }, given)?;
    let index = place;
    give(numbers, VecDiff::InsertAt { index, value }, given)
}

/// The number at the index changes.
fn change<M: Mapper<i64, i64>>(
    mapper: &M,
    numbers: &mut Items<i64>,
    index: u32,
    value: i64,
    given: &mut Diffs<i64>,
) -> Result<(), NoMemory>
    requires can_call { M.can_call mapper.now }
    requires index { index < length numbers.old }
    requires short { length numbers.old ≤ 65536 }
    requires ascend { IsSorted (by_key (M.maps mapper.now)) numbers.old }
    ensures given { OnOk result (given.new ≡ given.old ++ changes (M.maps mapper.now) numbers.old index value) }
    ensures numbers { OnOk result (numbers.new ≡ replayed numbers.old (changes (M.maps mapper.now) numbers.old index value)) }
{
    let place = not_above_without(mapper, numbers.as_slice(), index, value);
    exchange(numbers, index, place, value, given)
}

/// The item at the index of the list changes.
fn update<M: Mapper<i64, i64>>(
    mapper: &M,
    items: &[i64],
    numbers: &mut Items<i64>,
    index: u32,
    value: i64,
    given: &mut Diffs<i64>,
) -> Result<(), NoMemory>
    requires can_call { M.can_call mapper.now }
    requires index { index < length items.now }
    requires short { length numbers.old ≤ 65536 }
    requires ascend { IsSorted (by_key (M.maps mapper.now)) numbers.old }
    requires in_order { numbers.old ≡ in_order (by_key (M.maps mapper.now)) items.now }
    ensures given { OnOk result (given.new ≡ given.old ++ sorted_by (M.maps mapper.now) items.now numbers.old (VecDiff.UpdateAt index value)) }
    ensures numbers { OnOk result (numbers.new ≡ replayed numbers.old (sorted_by (M.maps mapper.now) items.now numbers.old (VecDiff.UpdateAt index value))) }
{
    let place = rank(mapper, items, numbers.as_slice(), index);
    change(mapper, numbers, place, value, given)
}

/// Adds what the sorted view gives for a difference of its list, and makes the same changes in the list in order.
fn sorted<M: Mapper<i64, i64>>(
    mapper: &M,
    items: &[i64],
    numbers: &mut Items<i64>,
    diff: &VecDiff<i64>,
    given: &mut Diffs<i64>,
) -> Result<(), NoMemory>
    requires can_call { M.can_call mapper.now }
    requires lawful { IsLawful diff.now (length items.now) }
    requires short_items { length items.now ≤ 65536 }
    requires short { length numbers.old ≤ 65536 }
    requires ascend { IsSorted (by_key (M.maps mapper.now)) numbers.old }
    requires in_order { numbers.old ≡ in_order (by_key (M.maps mapper.now)) items.now }
    ensures given { OnOk result (given.new ≡ given.old ++ sorted_by (M.maps mapper.now) items.now numbers.old diff.now) }
    ensures numbers { OnOk result (numbers.new ≡ replayed numbers.old (sorted_by (M.maps mapper.now) items.now numbers.old diff.now)) }
{
    match diff {
        VecDiff::Replace { values } => {
            let values = in_order(mapper, values.copy()?);
            give(numbers, VecDiff::Replace { values }, given)
        }
        VecDiff::InsertAt { value, .. } => come(mapper, numbers, *value, given),
        VecDiff::Push { value } => come(mapper, numbers, *value, given),
        VecDiff::UpdateAt { index, value } => {
            update(mapper, items, numbers, *index, *value, given)
        }
        VecDiff::RemoveAt { index } => {
            let index = rank(mapper, items, numbers.as_slice(), *index);
            give(numbers, VecDiff::RemoveAt { index }, given)
        }
        VecDiff::Move { .. } => Ok(()),
        VecDiff::Pop => {
            let index = rank(mapper, items, numbers.as_slice(), items.len() as u32 - 1);
            give(numbers, VecDiff::RemoveAt { index }, given)
        }
        VecDiff::Clear => give(numbers, VecDiff::Clear, given),
    }
}
