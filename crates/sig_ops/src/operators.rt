ghost use Rattle.std.specs.Prelude.{◌≡◌, ◌++◌, ◌+◌, ◌^◌, ◌<◌, ◌≤◌, ℕ, List, length, IfOk, OnOk};
ghost use Rattle.sig_diff.specs.declared.differences.VecDiff.{VecDiff};
ghost use Rattle.sig_diff.specs.Differences.{IsLawful, applied};
ghost use Rattle.sig_ops.specs.Leading.{LeadsTo};

use sig_diff::{Diffs, Items, NoMemory, VecDiff};

/// A view of a list that follows it by differences.
///
/// Its law: where the operator stands for a list that takes a difference, what a step gives leads from the view of the list to the
/// view of the list after the difference. After want of memory an operator is not to be stepped again.
pub trait VecOp {
    type In: Copy + Eq;

    type Out: Copy + Eq;

    /// Whether it can be started.
    ghost can_start: { Self → Type 0 };
    /// The lists that it stands for.
    ghost stands_for: { Self → List Self.In → Type 0 };
    /// What it shows of a list that it stands for.
    ghost view: { Self → List Self.In → List Self.Out };
    /// How many tags it has given out since its start.
    ghost tags: { Self → ℕ };
    /// What it is after a start on a list.
    ghost started: { Self → List Self.In → Self };
    /// Whether it can go a step by a difference, what it gives then, and what it is after the step.
    ghost can_step: { Self → VecDiff Self.In → Type 0 };

    ghost gives: { Self → VecDiff Self.In → List (VecDiff Self.Out) };

    ghost next: { Self → VecDiff Self.In → Self };

    /// The view of a list, for which it stands from then on.
    fn start(&mut self, items: &Items<Self::In>) -> Result<Items<Self::Out>, NoMemory>
        requires can_start { can_start self.old }
        requires short { length items.now ≤ 65536 }
        ensures view { IfOk result (λ shown. shown ≡ view self.new items.now) }
        ensures state { OnOk result (self.new ≡ started self.old items.now) };

    /// Adds what it gives for a difference of its list, and stands for the list after the difference.
    fn step(
        &mut self,
        diff: &VecDiff<Self::In>,
        given: &mut Diffs<Self::Out>,
    ) -> Result<(), NoMemory>
        requires { can_step self.old diff.now }
        ensures given { OnOk result (given.new ≡ given.old ++ gives self.old diff.now) }
        ensures state { OnOk result (self.new ≡ next self.old diff.now) };

    ghost leads: { (op : Self) (xs : List Self.In) (diff : VecDiff Self.In) → stands_for op xs → IsLawful diff (length xs)
        → LeadsTo (view op xs) (gives op diff) (view (next op diff) (applied xs diff)) };

    ghost stands_at_start: { (op : Self) (xs : List Self.In) → can_start op → stands_for (started op xs) xs };

    ghost stands_after: { (op : Self) (xs : List Self.In) (diff : VecDiff Self.In) → stands_for op xs → IsLawful diff (length xs)
        → stands_for (next op diff) (applied xs diff) };

    ghost steps_where_lawful: { (op : Self) (xs : List Self.In) (diff : VecDiff Self.In) → stands_for op xs → IsLawful diff (length xs)
        → length xs ≤ 65536 → length (applied xs diff) ≤ 65536 → tags op + 65536 < 2 ^ 128 → can_step op diff };

    ghost view_is_short: { (op : Self) (xs : List Self.In) → stands_for op xs → length (view op xs) ≤ length xs };

    ghost no_tags_at_start: { (op : Self) (xs : List Self.In) → tags (started op xs) ≤ length xs };

    ghost few_tags_a_step: { (op : Self) (xs : List Self.In) (diff : VecDiff Self.In) → stands_for op xs → IsLawful diff (length xs)
        → length (applied xs diff) ≤ 65536 → tags (next op diff) ≤ tags op + 65536 };
}
