ghost use Rattle.std.specs.Prelude.{◌≡◌};
ghost use Rattle.sig_diff.specs.Choosing.{chooses_same, list_for, signal_for};

use crate::arithmetic::class_of;
use crate::functions::{Mapper, Tester};
use crate::lists::Items;

/// The signal of the number's class, or 0 where there is none.
pub fn signal_for(signals: &[i64], number: i64) -> i64
    ensures { result ≡ signal_for signals.now number }
{
    if signals.is_empty() {
        0
    } else {
        signals[class_of(number, signals.len())]
    }
}

/// The list of the number's class, or the empty one where there is none.
pub fn list_for(lists: &[Items<i64>], number: i64) -> &[i64]
    ensures { result.now ≡ list_for lists.now number }
{
    if lists.is_empty() {
        &[]
    } else {
        lists[class_of(number, lists.len())].as_slice()
    }
}

/// Whether two numbers choose the same part of a bank with so many. An empty bank has no other.
///
/// Of 3 parts 4 and -2 choose the same, the second: each leaves the remainder 1.
pub fn chooses_same(count: usize, one: i64, other: i64) -> bool
    ensures { result ≡ chooses_same count one other }
{
    count == 0 || class_of(one, count) == class_of(other, count)
}

/// The test whether the signal of a number's class isn't 0.
#[derive(Drop)]
pub struct LetIn<'a> {
    pub signals: &'a [i64],
}

impl<'a> Tester<i64> for LetIn<'a> {
    ghost use Rattle.sig_diff.specs.Choosing.{is_let_in};

    ghost can_call = { λ test. Unit {0} };

    ghost passes = { λ test. is_let_in test.signals.now };

    fn call(&self, number: i64) -> bool {
        signal_for(self.signals, number) != 0
    }
}

/// The number plus the signal of its class, as far as 64 bits reach.
#[derive(Drop)]
pub struct RaisedBy<'a> {
    pub signals: &'a [i64],
}

impl<'a> Mapper<i64, i64> for RaisedBy<'a> {
    ghost use Rattle.sig_diff.specs.Choosing.{raised_by};

    ghost can_call = { λ raise. Unit {0} };

    ghost maps = { λ raise. raised_by raise.signals.now };

    fn call(&self, number: i64) -> i64 {
        number.saturating_add(signal_for(self.signals, number))
    }
}
