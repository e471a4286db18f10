ghost use Rattle.std.specs.Prelude.{◌≡◌, ◌++◌, ◌<◌, ◌≤◌, [], length, filter, IfOk, OnOk};
ghost use Rattle.sig_bank.specs.Banks.{items_next, signals_next};
ghost use Rattle.sig_bank.specs.Tables.{comes_or_goes, filter_by_signal, has_class, flipping};
ghost use Rattle.sig_diff.specs.Choosing.{is_let_in};
ghost use Rattle.sig_diff.specs.Differences.{IsLawful, applied};
ghost use Rattle.sig_ops.specs.Tables.{filter_gives};
ghost use Rattle.sig_ops.specs.Leading.{LeadsTo};

use sig_diff::{Diffs, Items, LetIn, NoMemory, Tester, VecDiff, apply, class_of, passing};
use sig_ops::filtered;
use std::alloc::Global;
use std::marker::Model;

/// The elements of a list whose signal of a bank isn't 0: an element's signal is the one of its class.
///
/// By the signals 1 and 0 it shows the list 4, 1, 3 as 4, since the class of a number is its remainder by 2. Where the second signal goes to 1
/// it gives an insertion of 1 at 1 and one of 3 at 2.
#[derive(Debug, Drop)]
pub struct FilterBy {
    items: Items<i64>,
    signals: Items<i64>,
}

impl Model for FilterBy {
    ghost use Rattle.sig_bank.specs.Banks.{BySignals};

    ghost Value = { BySignals };

    ghost view = { λ op. record { items = op.items; signals = op.signals } };
}

impl FilterBy {
    /// The filter, not yet started. It takes no memory.
    pub fn new(alloc: Global) -> FilterBy
        ensures items { result.items ≡ [] }
        ensures signals { result.signals ≡ [] }
    {
        FilterBy {
            items: Items::new(alloc),
            signals: Items::new(alloc),
        }
    }

    /// The elements that pass, for the list and the signals' values from then on.
    pub fn start(
        &mut self,
        items: &Items<i64>,
        signals: &Items<i64>,
    ) -> Result<Items<i64>, NoMemory>
        requires { length items.now ≤ 65536 }
        ensures view { IfOk result (λ kept. kept ≡ filter (is_let_in signals.now) items.now) }
        ensures state { OnOk result (self.new ≡ record { items = items.now; signals = signals.now }) }
    {
        self.items = items.copy()?;
        self.signals = signals.copy()?;
        let test = LetIn {
            signals: signals.as_slice(),
        };
        passing(items.alloc(), &test, items.as_slice())
    }

    /// How many signals the bank has.
    pub fn signal_count(&self) -> usize
        ensures { result ≡ length self.now.signals }
    {
        self.signals.len()
    }

    /// Adds what it gives for a difference of the list: what a filter by the signals' present values does.
    pub fn step_list(&mut self, diff: &VecDiff<i64>, given: &mut Diffs<i64>) -> Result<(), NoMemory>
        requires lawful { IsLawful diff.now (length self.old.items) }
        requires short { length self.old.items ≤ 65536 }
        requires short_after { length (applied self.old.items diff.now) ≤ 65536 }
        ensures given { OnOk result (given.new ≡ given.old ++ filter_gives (is_let_in self.old.signals) self.old.items diff.now) }
        ensures state { OnOk result (self.new ≡ items_next self.old diff.now) }
        ensures law { LeadsTo (filter (is_let_in self.old.signals) self.old.items) (filter_gives (is_let_in self.old.signals) self.old.items diff.now)
            (filter (is_let_in self.old.signals) (items_next self.old diff.now).items) }
    {
        let test = LetIn {
            signals: self.signals.as_slice(),
        };
        filtered(&test, self.items.as_slice(), diff, given)?;
        apply(&mut self.items, diff)
    }

    /// Adds what it gives where the signal at a place goes to a value: nothing, or its class comes in, or goes.
    pub fn step_signal(
        &mut self,
        child: usize,
        value: i64,
        given: &mut Diffs<i64>,
    ) -> Result<(), NoMemory>
        requires child { child < length self.old.signals }
        requires short { length self.old.items ≤ 65536 }
        ensures given { OnOk result (given.new ≡ given.old ++ filter_by_signal self.old child value) }
        ensures state { OnOk result (self.new ≡ signals_next self.old child value) }
        ensures law { LeadsTo (filter (is_let_in self.old.signals) self.old.items) (filter_by_signal self.old child value)
            (filter (is_let_in (signals_next self.old child value).signals) self.old.items) }
    {
        let was_in = self.signals.as_slice()[child] != 0;
        self.signals.set(child, value);
        if was_in == (value != 0) {
            return Ok(());
        }
        flip_class(self.signals.as_slice(), child, self.items.as_slice(), given)
    }
}

/// Adds what is given where the elements of a signal's class flip, each at its place among those that pass now.
fn flip_class(
    signals: &[i64],
    child: usize,
    items: &[i64],
    given: &mut Diffs<i64>,
) -> Result<(), NoMemory>
    requires child { child < length signals.now }
    requires short { length items.now ≤ 65536 }
    ensures { OnOk result (given.new ≡ given.old ++ flipping (is_let_in signals.now) (has_class (length signals.now) child) 0 items.now) }
{
    let test = LetIn { signals };
    let mut place = 0;
    'items: for item in items {
        let passes = test.call(*item);
        let flips = class_of(*item, signals.len()) == child;
        flip(flips, passes, place, *item, given)?;
        if passes {
            place += 1;
        }
    }
    Ok(())
}

/// Adds what is given for an element at its place, by whether it flips, and whether it passes now.
fn flip(
    flips: bool,
    passes: bool,
    place: u32,
    value: i64,
    given: &mut Diffs<i64>,
) -> Result<(), NoMemory>
    ensures { OnOk result (given.new ≡ given.old ++ comes_or_goes flips passes place value) }
{
    match (flips, passes) {
        (true, true) => given.push(VecDiff::InsertAt {
            index: place,
            value,
        }),
        (true, false) => given.push(VecDiff::RemoveAt { index: place }),
        (false, _) => Ok(()),
    }
}
