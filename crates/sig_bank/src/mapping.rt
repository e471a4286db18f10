ghost use Rattle.std.specs.Prelude.{◌≡◌, ◌++◌, ◌<◌, ◌≤◌, [], length, map, IfOk, OnOk};
ghost use Rattle.sig_bank.specs.Banks.{items_next, signals_next};
ghost use Rattle.sig_bank.specs.Tables.{changing, has_class, map_by_signal};
ghost use Rattle.sig_diff.specs.Choosing.{raised_by};
ghost use Rattle.sig_diff.specs.Differences.{IsLawful};
ghost use Rattle.sig_ops.specs.Tables.{if_so, map_gives};
ghost use Rattle.sig_ops.specs.Leading.{LeadsTo};

use sig_diff::{Diffs, Items, Mapper, NoMemory, RaisedBy, VecDiff, apply, class_of, mapped};
use sig_ops::image;
use std::alloc::Global;
use std::marker::Model;

/// Each element of a list plus its signal of a bank, as far as 64 bits reach: an element's signal is the one of its class.
///
/// By the signals 10 and 0 it shows the list 4, 1, 3 as 14, 1, 3. Where the second signal goes to 5 it gives an update of 6 at 1 and one of 8
/// at 2.
#[derive(Debug, Drop)]
pub struct MapBy {
    items: Items<i64>,
    signals: Items<i64>,
}

impl Model for MapBy {
    ghost use Rattle.sig_bank.specs.Banks.{BySignals};

    ghost Value = { BySignals };

    ghost view = { λ op. record { items = op.items; signals = op.signals } };
}

impl MapBy {
    /// The map, not yet started. It takes no memory.
    pub fn new(alloc: Global) -> MapBy
        ensures items { result.items ≡ [] }
        ensures signals { result.signals ≡ [] }
    {
        MapBy {
            items: Items::new(alloc),
            signals: Items::new(alloc),
        }
    }

    /// The sums, for the list and the signals' values from then on.
    pub fn start(
        &mut self,
        items: &Items<i64>,
        signals: &Items<i64>,
    ) -> Result<Items<i64>, NoMemory>
        ensures view { IfOk result (λ sums. sums ≡ map (raised_by signals.now) items.now) }
        ensures state { OnOk result (self.new ≡ record { items = items.now; signals = signals.now }) }
    {
        self.items = items.copy()?;
        self.signals = signals.copy()?;
        let raise = RaisedBy {
            signals: signals.as_slice(),
        };
        mapped(items.alloc(), &raise, items.as_slice())
    }

    /// How many signals the bank has.
    pub fn signal_count(&self) -> usize
        ensures { result ≡ length self.now.signals }
    {
        self.signals.len()
    }

    /// Adds what it gives for a difference of the list: what a map by the signals' present values does.
    pub fn step_list(&mut self, diff: &VecDiff<i64>, given: &mut Diffs<i64>) -> Result<(), NoMemory>
        requires { IsLawful diff.now (length self.old.items) }
        ensures given { OnOk result (given.new ≡ given.old ++ map_gives (raised_by self.old.signals) diff.now) }
        ensures state { OnOk result (self.new ≡ items_next self.old diff.now) }
        ensures law { LeadsTo (map (raised_by self.old.signals) self.old.items) (map_gives (raised_by self.old.signals) diff.now)
            (map (raised_by self.old.signals) (items_next self.old diff.now).items) }
    {
        let raise = RaisedBy {
            signals: self.signals.as_slice(),
        };
        given.push(image(given.alloc(), &raise, diff)?)?;
        apply(&mut self.items, diff)
    }

    /// Adds what it gives where the signal at a place goes to a value: nothing, or its class changes.
    pub fn step_signal(
        &mut self,
        child: usize,
        value: i64,
        given: &mut Diffs<i64>,
    ) -> Result<(), NoMemory>
        requires child { child < length self.old.signals }
        requires short { length self.old.items ≤ 65536 }
        ensures given { OnOk result (given.new ≡ given.old ++ map_by_signal self.old child value) }
        ensures state { OnOk result (self.new ≡ signals_next self.old child value) }
        ensures law { LeadsTo (map (raised_by self.old.signals) self.old.items) (map_by_signal self.old child value)
            (map (raised_by (signals_next self.old child value).signals) self.old.items) }
    {
        let was = self.signals.as_slice()[child];
        self.signals.set(child, value);
        if was == value {
            return Ok(());
        }
        change_class(self.signals.as_slice(), child, self.items.as_slice(), given)
    }
}

/// Adds what is given where the elements of a signal's class change, each at its place.
fn change_class(
    signals: &[i64],
    child: usize,
    items: &[i64],
    given: &mut Diffs<i64>,
) -> Result<(), NoMemory>
    requires child { child < length signals.now }
    requires short { length items.now ≤ 65536 }
    ensures { OnOk result (given.new ≡ given.old ++ changing (raised_by signals.now) (has_class (length signals.now) child) 0 items.now) }
{
    let mut index = 0;
    'items: for item in items {
        change(signals, child, index, *item, given)?;
        index += 1;
    }
    Ok(())
}

/// Adds what is given for an element at its index: its present sum, where it is of the signal's class.
fn change(
    signals: &[i64],
    child: usize,
    index: u32,
    item: i64,
    given: &mut Diffs<i64>,
) -> Result<(), NoMemory>
    requires { child < length signals.now }
    ensures { OnOk result (given.new ≡ given.old ++ if_so (has_class (length signals.now) child item) (VecDiff.UpdateAt index (raised_by signals.now item))) }
{
    if class_of(item, signals.len()) != child {
        return Ok(());
    }
    let value = RaisedBy { signals }.call(item);
    given.push(VecDiff::UpdateAt { index, value })
}
