ghost use Rattle.std.specs.Prelude.{◌≡◌, ◌++◌, ◌<◌, ◌≤◌, [], length, IfOk, OnOk};
ghost use Rattle.sig_bank.specs.Banks.{bank_next, chosen_place, list_at};
ghost use Rattle.sig_bank.specs.Tables.{pick_gives, picked_gives};
ghost use Rattle.sig_diff.specs.Choosing.{list_for};
ghost use Rattle.sig_diff.specs.Differences.{IsLawful};
ghost use Rattle.sig_ops.specs.Leading.{LeadsTo};

use sig_diff::{
    Diffs, Items, Lists, NoMemory, TryCopy, VecDiff, apply, chooses_same, class_of, list_for,
};
use std::alloc::Global;
use std::marker::Model;

/// The list of a bank that a chooser's value chooses, by its class.
///
/// Of two lists the chooser 3 chooses the second. For a push of 7 to that one it gives the push, for one to the first nothing, and where the
/// chooser goes to 4 a replacement by the first.
#[derive(Debug, Drop)]
pub struct Pick {
    chooser: i64,
    lists: Vec<Items<i64>>,
}

impl Model for Pick {
    ghost use Rattle.std.specs.Prelude.{List, ℤ};
    ghost use Rattle.sig_bank.specs.Banks.{Choice};

    ghost Value = { Choice (List ℤ) };

    ghost view = { λ op. record { chooser = op.chooser; parts = op.lists.items } };
}

impl Pick {
    /// The pick, not yet started. It takes no memory.
    pub fn new(alloc: Global) -> Pick
        ensures { result.parts ≡ [] }
    {
        Pick {
            chooser: 0,
            lists: Vec::new(alloc),
        }
    }

    /// The chosen list, for the chooser's value and the lists from then on.
    pub fn start(&mut self, chooser: i64, bank: &Lists) -> Result<Items<i64>, NoMemory>
        ensures view { IfOk result (λ items. items ≡ list_for bank.now chooser) }
        ensures state { OnOk result (self.new ≡ record { chooser = chooser; parts = bank.now }) }
    {
        self.lists = bank.copy()?.into_vec();
        self.chooser = chooser;
        chosen_copy(bank.alloc(), bank.as_slice(), chooser)
    }

    /// The place of the chosen list in the bank.
    pub fn chosen(&self) -> usize
        requires { 0 < length self.now.parts }
        ensures place { result ≡ chosen_place self.now.parts self.now.chooser }
        ensures within { result < length self.now.parts }
    {
        class_of(self.chooser, self.lists.len())
    }

    /// Adds what it gives where the chooser, which is child 0, goes to a value: nothing, or the newly chosen list whole.
    pub fn step_signal(
        &mut self,
        child: usize,
        value: i64,
        given: &mut Diffs<i64>,
    ) -> Result<(), NoMemory>
        requires { child ≡ 0 }
        ensures given { OnOk result (given.new ≡ given.old ++ pick_gives self.old value) }
        ensures state { OnOk result (self.new ≡ record self.old { chooser = value }) }
        ensures law { LeadsTo (list_for self.old.parts self.old.chooser) (pick_gives self.old value) (list_for self.old.parts value) }
    {
        if !chooses_same(self.lists.len(), self.chooser, value) {
            let values = chosen_copy(given.alloc(), self.lists.as_slice(), value)?;
            given.push(VecDiff::Replace { values })?;
        }
        self.chooser = value;
        Ok(())
    }

    /// Adds what it gives for a difference of the list at a place: the difference, where that list is chosen.
    pub fn step_bank(
        &mut self,
        child: usize,
        diff: &VecDiff<i64>,
        given: &mut Diffs<i64>,
    ) -> Result<(), NoMemory>
        requires child { child < length self.old.parts }
        requires lawful { IsLawful diff.now (length (list_at self.old child)) }
        ensures given { OnOk result (given.new ≡ given.old ++ picked_gives self.old child diff.now) }
        ensures state { OnOk result (self.new ≡ bank_next self.old child diff.now) }
        ensures law { LeadsTo (list_for self.old.parts self.old.chooser) (picked_gives self.old child diff.now) (list_for (bank_next self.old child diff.now).parts self.old.chooser) }
    {
        if self.chosen() == child {
            given.push(diff.copy()?)?;
        }
        apply(&mut self.lists[child], diff)
    }
}

/// A copy of the list of the number's class, or the empty list where there is none.
fn chosen_copy(alloc: Global, lists: &[Items<i64>], number: i64) -> Result<Items<i64>, NoMemory>
    ensures { IfOk result (λ list. list ≡ list_for lists.now number) }
{
    let list = Vec::from_slice(alloc, list_for(lists, number))?;
    Ok(Items::from_vec(list))
}
