ghost use Rattle.std.specs.Prelude.{◌≡◌, ◌≢◌, ◌≤◌, ℤ, List, [], pos, length, All, FitsSigned, IfOk, OnErr, OnOk};
ghost use Rattle.std.specs.Int.{w64};
ghost use Rattle.sig_diff.specs.Differences.{IsLawful, applied};
ghost use Rattle.sig_diff.specs.Numbers.{clamped, total};
ghost use Rattle.sig_diff.specs.Replaying.{AreLawful, StaysShort, replayed};
ghost use Rattle.sig_ops.specs.Signals.{given};
ghost use Rattle.sig_ops.specs.Sizes.{resized, all_resized, AreLawfulFor, SizesStayWithin};

use sig_diff::{Diffs, Items, NoMemory, VecDiff, apply, clamped};
use std::alloc::Global;
use std::marker::Model;

/// The length of a list, as a signal.
///
/// Of the list 4, 1 it shows 2. For a push it then gives 3, and for an update nothing.
#[derive(Debug, Drop)]
pub struct LenOp {
    len: u32,
}

impl Model for LenOp {
    ghost use Rattle.std.specs.Prelude.{ℕ, ◌≤◌};

    ghost Value = { ℕ };

    ghost view = { λ op. op.len };

    ghost invariant = { λ op. op.len ≤ 65536 };
}

impl LenOp {
    pub fn new() -> LenOp
        ensures { result ≡ 0 }
    {
        LenOp { len: 0 }
    }

    /// The length, for which it stands from then on. It takes no memory.
    pub fn start(&mut self, items: &Items<i64>) -> i64
        requires { length items.now ≤ 65536 }
        ensures value { result ≡ pos (length items.now) }
        ensures state { self.new ≡ length items.now }
    {
        self.len = items.len() as u32;
        self.len as i64
    }

    /// The length after the differences, where it isn't the one before them.
    pub fn step(&mut self, diffs: &Diffs<i64>) -> Option<i64>
        requires lawful { AreLawfulFor self.old diffs.now }
        requires short { SizesStayWithin 65536 self.old diffs.now }
        ensures value { result ≡ given (pos self.old) (pos (all_resized self.old diffs.now)) }
        ensures state { self.new ≡ all_resized self.old diffs.now }
        ensures law { (xs : List ℤ) → self.old ≡ length xs → AreLawful xs diffs.now
            → self.new ≡ length (replayed xs diffs.now) }
    {
        let last = self.len;
        let mut len = last;
        'diffs: for diff in diffs.as_slice() {
            len = resized(len, diff);
        }
        self.len = len;
        changed(last as i64, len as i64)
    }
}

/// How long a list is after a difference, from how long it was before it.
pub fn resized(len: u32, diff: &VecDiff<i64>) -> u32
    requires short { resized len diff.now ≤ 65536 }
    ensures { result ≡ resized len diff.now }
{
    match diff {
        VecDiff::Replace { values } => values.len() as u32,
        VecDiff::InsertAt { .. } | VecDiff::Push { .. } => len + 1,
        VecDiff::UpdateAt { .. } | VecDiff::Move { .. } => len,
        VecDiff::RemoveAt { .. } | VecDiff::Pop => len.saturating_sub(1),
        VecDiff::Clear => 0,
    }
}

/// The present value, where it isn't the last one.
fn changed(last: i64, present: i64) -> Option<i64>
    ensures { result ≡ given last present }
{
    if present == last { None } else { Some(present) }
}

/// The exact total of a list, clamped once to 64 bits, as a signal.
///
/// Of the list 4, 1 it shows 5. For an update of 3 at 0 it then gives 4, and for a move nothing.
#[derive(Debug, Drop)]
pub struct SumOp {
    items: Items<i64>,
    exact: i128,
}

impl Model for SumOp {
    ghost use Rattle.std.specs.Prelude.{◌≡◌, ◌≤◌, ℤ, List, length, All, FitsSigned};
    ghost use Rattle.std.specs.Int.{w64};
    ghost use Rattle.sig_diff.specs.Numbers.{total};

    ghost Value = { List ℤ };

    ghost view = { λ op. op.items };

    ghost invariant = { λ op. (op.exact ≡ total op.items) × All (FitsSigned w64) op.items × (length op.items ≤ 65536) };
}

impl SumOp {
    pub fn new(alloc: Global) -> SumOp
        ensures { result ≡ [] }
    {
        SumOp {
            items: Items::new(alloc),
            exact: 0,
        }
    }

    /// The total, for which it stands from then on.
    pub fn start(&mut self, items: &Items<i64>) -> Result<i64, NoMemory>
        requires { length items.now ≤ 65536 }
        ensures value { IfOk result (λ value. value ≡ clamped (total items.now)) }
        ensures state { OnOk result (self.new ≡ items.now) }
    {
        self.items = items.copy()?;
        self.exact = exact_total(items.as_slice());
        Ok(clamped(self.exact))
    }

    /// The total after the differences, where it isn't the one before them. After want of memory it is not to be stepped again.
    pub fn step(&mut self, diffs: &Diffs<i64>) -> Result<Option<i64>, NoMemory>
        requires lawful { AreLawful self.old diffs.now }
        requires short { StaysShort 65536 self.old diffs.now }
        ensures value { IfOk result (λ value. value ≡ given (clamped (total self.old)) (clamped (total (replayed self.old diffs.now)))) }
        ensures state { OnOk result (self.new ≡ replayed self.old diffs.now) }
        ensures some { OnErr result (diffs.now ≢ []) }
    {
        let last = clamped(self.exact);
        'diffs: for diff in diffs.as_slice() {
            self.follow(diff)?;
        }
        Ok(changed(last, clamped(self.exact)))
    }

    /// Stands for the list after the difference.
    fn follow(&mut self, diff: &VecDiff<i64>) -> Result<(), NoMemory>
        requires lawful { IsLawful diff.now (length self.old) }
        requires short { length (applied self.old diff.now) ≤ 65536 }
        ensures { OnOk result (self.new ≡ applied self.old diff.now) }
    {
        let total = total_after(self.exact, self.items.as_slice(), diff);
        apply(&mut self.items, diff)?;
        self.exact = total;
        Ok(())
    }
}

/// The exact total.
fn exact_total(items: &[i64]) -> i128
    requires { length items.now ≤ 65536 }
    ensures total { result ≡ total items.now }
    ensures fit { All (FitsSigned w64) items.now }
{
    let mut total = 0;
    'items: for item in items {
        total += *item as i128;
    }
    total
}

/// The total of a list after a difference, from the one before it.
fn total_after(before: i128, items: &[i64], diff: &VecDiff<i64>) -> i128
    requires before { before ≡ total items.now }
    requires fit { All (FitsSigned w64) items.now }
    requires short_before { length items.now ≤ 65536 }
    requires lawful { IsLawful diff.now (length items.now) }
    requires short { length (applied items.now diff.now) ≤ 65536 }
    ensures total { result ≡ total (applied items.now diff.now) }
    ensures fit { All (FitsSigned w64) (applied items.now diff.now) }
{
    match diff {
        VecDiff::Replace { values } => exact_total(values.as_slice()),
        VecDiff::InsertAt { value, .. } => before + *value as i128,
        VecDiff::UpdateAt { index, value } => {
            before - items[*index as usize] as i128 + *value as i128
        }
        VecDiff::RemoveAt { index } => before - items[*index as usize] as i128,
        VecDiff::Move { .. } => before,
        VecDiff::Push { value } => before + *value as i128,
        VecDiff::Pop => before - items[items.len() - 1] as i128,
        VecDiff::Clear => 0,
    }
}

/// A signal that gives only values that differ from the last.
///
/// After a start with 4 it gives nothing for 4, and then 5 for 5.
#[derive(Debug, Drop)]
pub struct Dedupe {
    last: i64,
}

impl Model for Dedupe {
    ghost use Rattle.std.specs.Prelude.{ℤ};

    ghost Value = { ℤ };

    ghost view = { λ signal. signal.last };
}

impl Dedupe {
    pub fn new() -> Dedupe
        ensures { result ≡ pos 0 }
    {
        Dedupe { last: 0 }
    }

    /// The value, which is the last one from then on.
    pub fn start(&mut self, value: i64) -> i64
        ensures value { result ≡ value }
        ensures state { self.new ≡ value }
    {
        self.last = value;
        value
    }

    /// The value, where it isn't the last one.
    pub fn step(&mut self, value: i64) -> Option<i64>
        ensures value { result ≡ given self.old value }
        ensures state { self.new ≡ value }
    {
        let last = self.last;
        self.last = value;
        changed(last, value)
    }
}
