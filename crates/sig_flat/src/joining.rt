ghost use Rattle.std.specs.Prelude.{◌≡◌, ◌++◌, ◌<◌, ◌≤◌, ◌+◌, ℕ, ℤ, List, length, if◌then◌else◌, IfOk, OnOk};
ghost use Rattle.sig_diff.specs.Differences.{IsLawful, applied};
ghost use Rattle.sig_flat.specs.Joining.{half, joined_gives, joined_next, left_gives, right_gives};
ghost use Rattle.sig_ops.specs.Sizes.{resized};
ghost use Rattle.sig_ops.specs.Leading.{LeadsTo};

use crate::runs::{give_further, inserts, pops, pushes, removes};
use sig_diff::{Diffs, Items, NoMemory, TryCopy, VecDiff};
use sig_ops::resized;
use std::alloc::Global;
use std::marker::Model;

/// Two lists, one behind the other. Contracts see it as how long they are.
///
/// It shows the lists 4, 1 and 9 as 4, 1, 9. For a push of 7 to the left one it then gives an insertion of 7 at 2.
#[derive(Debug, Drop)]
pub struct Concat {
    left: u32,
    right: u32,
}

impl Model for Concat {
    ghost use Rattle.sig_flat.specs.Joining.{Halves};

    ghost Value = { Halves };

    ghost view = { λ op. record { left = op.left; right = op.right } };
}

impl Concat {
    /// Two lists, not yet started. It takes no memory.
    pub fn new(alloc: Global) -> Concat
        ensures left { result.left ≡ 0 }
        ensures right { result.right ≡ 0 }
    {
        Concat { left: 0, right: 0 }
    }

    /// The two lists as one, for which it stands from then on.
    pub fn start(&mut self, left: &Items<i64>, right: &Items<i64>) -> Result<Items<i64>, NoMemory>
        requires { length left.now + length right.now ≤ 65536 }
        ensures view { IfOk result (λ both. both ≡ left.now ++ right.now) }
        ensures state { OnOk result (self.new ≡ record { left = length left.now; right = length right.now }) }
    {
        self.left = left.len() as u32;
        self.right = right.len() as u32;
        let mut both = left.copy()?.into_vec();
        both.extend_from_slice(right.as_slice())?;
        Ok(Items::from_vec(both))
    }

    /// Adds what is given for a difference of the left list, which is child 0, or the right one, child 1.
    pub fn step_bank(
        &mut self,
        child: usize,
        diff: &VecDiff<i64>,
        given: &mut Diffs<i64>,
    ) -> Result<(), NoMemory>
        requires child { child < 2 }
        requires lawful { IsLawful diff.now (half self.old child) }
        requires short { self.old.left + self.old.right ≤ 65536 }
        requires short_after { resized (half self.old child) diff.now ≤ 65536 }
        ensures given { OnOk result (given.new ≡ given.old ++ joined_gives self.old child diff.now) }
        ensures state { OnOk result (self.new ≡ joined_next self.old child diff.now) }
        ensures left_law { (left right : List ℤ) → length left ≡ self.old.left → length right ≡ self.old.right → child ≡ 0
            → LeadsTo (left ++ right) (joined_gives self.old child diff.now) (applied left diff.now ++ right) }
        ensures right_law { (left right : List ℤ) → length left ≡ self.old.left → length right ≡ self.old.right → child ≡ 1
            → LeadsTo (left ++ right) (joined_gives self.old child diff.now) (left ++ applied right diff.now) }
        ensures left_len { (left right : List ℤ) → length left ≡ self.old.left → length right ≡ self.old.right → child ≡ 0
            → OnOk result ((self.new.left ≡ length (applied left diff.now)) × (self.new.right ≡ length right)) }
        ensures right_len { (left right : List ℤ) → length left ≡ self.old.left → length right ≡ self.old.right → child ≡ 1
            → OnOk result ((self.new.left ≡ length left) × (self.new.right ≡ length (applied right diff.now))) }
    {
        match child {
            0 => self.step_left(diff, given),
            _ => self.step_right(diff, given),
        }
    }

    /// Adds what is given for a difference of the left list.
    fn step_left(&mut self, diff: &VecDiff<i64>, given: &mut Diffs<i64>) -> Result<(), NoMemory>
        requires lawful { IsLawful diff.now self.old.left }
        requires short_after { resized self.old.left diff.now ≤ 65536 }
        ensures given { OnOk result (given.new ≡ given.old ++ left_gives self.old diff.now) }
        ensures state { OnOk result (self.new ≡ joined_next self.old 0 diff.now) }
    {
        if self.right == 0 {
            given.push(diff.copy()?)?;
        } else {
            change_front(self.left, diff, given)?;
        }
        self.left = resized(self.left, diff);
        Ok(())
    }

    /// Adds what is given for a difference of the right list.
    fn step_right(&mut self, diff: &VecDiff<i64>, given: &mut Diffs<i64>) -> Result<(), NoMemory>
        requires lawful { IsLawful diff.now self.old.right }
        requires short { self.old.left + self.old.right ≤ 65536 }
        requires short_after { resized self.old.right diff.now ≤ 65536 }
        ensures given { OnOk result (given.new ≡ given.old ++ right_gives self.old diff.now) }
        ensures state { OnOk result (self.new ≡ joined_next self.old 1 diff.now) }
    {
        if self.left == 0 {
            given.push(diff.copy()?)?;
        } else {
            change_back(self.left, self.right, diff, given)?;
        }
        self.right = resized(self.right, diff);
        Ok(())
    }
}

/// Adds what is given for a difference of so many elements with others behind them.
fn change_front(left: u32, diff: &VecDiff<i64>, given: &mut Diffs<i64>) -> Result<(), NoMemory>
    requires lawful { IsLawful diff.now left }
    requires short_after { resized left diff.now ≤ 65536 }
    ensures { (right : ℕ) → 0 < right → OnOk result (given.new ≡ given.old ++ left_gives (record { left = left; right = right }) diff.now) }
{
    match diff {
        VecDiff::Replace { values } => {
            removes(left, 0, given)?;
            inserts(0, values.as_slice(), given)
        }
        VecDiff::InsertAt { .. }
        | VecDiff::UpdateAt { .. }
        | VecDiff::RemoveAt { .. }
        | VecDiff::Move { .. } => given.push(diff.copy()?),
        VecDiff::Push { value } => given.push(VecDiff::InsertAt {
            index: left,
            value: *value,
        }),
        VecDiff::Pop => given.push(VecDiff::RemoveAt { index: left - 1 }),
        VecDiff::Clear => removes(left, 0, given),
    }
}

/// Adds what is given for a difference of the right elements, behind so many left ones.
#[tactic(auto, using(crate::proofs::Further::last_place_within))]
fn change_back(
    left: u32,
    right: u32,
    diff: &VecDiff<i64>,
    given: &mut Diffs<i64>,
) -> Result<(), NoMemory>
    requires left { 0 < left }
    requires lawful { IsLawful diff.now right }
    requires short { left + right ≤ 65536 }
    ensures { OnOk result (given.new ≡ given.old ++ right_gives (record { left = left; right = right }) diff.now) }
{
    match diff {
        VecDiff::Replace { values } => {
            pops(right, given)?;
            pushes(values.as_slice(), given)
        }
        VecDiff::InsertAt { .. }
        | VecDiff::UpdateAt { .. }
        | VecDiff::RemoveAt { .. }
        | VecDiff::Move { .. } => give_further(left, diff, given),
        VecDiff::Push { .. } | VecDiff::Pop => given.push(diff.copy()?),
        VecDiff::Clear => pops(right, given),
    }
}
