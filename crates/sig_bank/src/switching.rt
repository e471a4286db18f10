ghost use Rattle.std.specs.Prelude.{◌≡◌, ◌<◌, ◌≤◌, ◌^◌, [], suc, length, unwrap_or, IfOk, OnOk};
ghost use Rattle.sig_bank.specs.Banks.{chosen_place, switch_next};
ghost use Rattle.sig_bank.specs.Tables.{switch_gives};
ghost use Rattle.sig_diff.specs.Choosing.{signal_for};

use sig_diff::{Items, NoMemory, chooses_same, class_of, signal_for};
use std::alloc::Global;
use std::marker::Model;

/// The signal of a bank that a chooser's value chooses, by its class.
///
/// Of the signals 10 and 20 the chooser 3 chooses the second, so it shows 20. Where the second goes to 21 it gives 21, where the first goes to
/// 11 nothing, and where the chooser goes to 4 then 11.
#[derive(Debug, Drop)]
pub struct Switch {
    chooser: i64,
    signals: Items<i64>,
}

impl Model for Switch {
    ghost use Rattle.std.specs.Prelude.{ℤ};
    ghost use Rattle.sig_bank.specs.Banks.{Choice};

    ghost Value = { Choice ℤ };

    ghost view = { λ op. record { chooser = op.chooser; parts = op.signals } };
}

impl Switch {
    /// The switch, not yet started. It takes no memory.
    pub fn new(alloc: Global) -> Switch
        ensures { result.parts ≡ [] }
    {
        Switch {
            chooser: 0,
            signals: Items::new(alloc),
        }
    }

    /// The chosen signal's value, for the chooser's value and the signals' values from then on.
    pub fn start(&mut self, chooser: i64, bank: &Items<i64>) -> Result<i64, NoMemory>
        ensures value { IfOk result (λ value. value ≡ signal_for bank.now chooser) }
        ensures state { OnOk result (self.new ≡ record { chooser = chooser; parts = bank.now }) }
    {
        self.signals = bank.copy()?;
        self.chooser = chooser;
        Ok(signal_for(bank.as_slice(), chooser))
    }

    /// The place of the chosen signal in the bank.
    pub fn chosen(&self) -> usize
        requires { 0 < length self.now.parts }
        ensures place { result ≡ chosen_place self.now.parts self.now.chooser }
        ensures within { result < length self.now.parts }
        ensures few { length self.now.parts < 2 ^ 64 }
    {
        class_of(self.chooser, self.signals.len())
    }

    /// What it gives where the chooser, child 0, or the signal at a place of the bank, child place + 1, goes to a value. It takes no
    /// memory.
    pub fn step_signal(&mut self, child: usize, value: i64) -> Option<i64>
        requires { child ≤ length self.old.parts }
        ensures value { result ≡ switch_gives self.old child value }
        ensures state { self.new ≡ switch_next self.old child value }
        ensures law { unwrap_or result (signal_for self.old.parts self.old.chooser) ≡ signal_for self.new.parts self.new.chooser }
    {
        match child {
            0 => self.choose(value),
            _ => self.set(child - 1, value),
        }
    }

    /// What it gives where the chooser goes to a value.
    fn choose(&mut self, value: i64) -> Option<i64>
        ensures value { result ≡ switch_gives self.old 0 value }
        ensures state { self.new ≡ switch_next self.old 0 value }
    {
        let same = chooses_same(self.signals.len(), self.chooser, value);
        self.chooser = value;
        if same {
            None
        } else {
            Some(signal_for(self.signals.as_slice(), value))
        }
    }

    /// What it gives where the signal at a place of the bank goes to a value.
    fn set(&mut self, place: usize, value: i64) -> Option<i64>
        requires { place < length self.old.parts }
        ensures value { result ≡ switch_gives self.old (suc place) value }
        ensures state { self.new ≡ switch_next self.old (suc place) value }
    {
        let chosen = self.chosen();
        self.signals.set(place, value);
        if chosen == place { Some(value) } else { None }
    }
}
