ghost use Rattle.std.specs.Prelude.{◌≡◌};
ghost use Rattle.sig_expr.specs.Functions.{image, is_so, passes};

use sig_diff::{Mapper, Tester};

/// A function of numbers. Sums, products and negations stop at the ends of i64.
#[derive(Debug, Clone, Copy, PartialEq, Eq)]
pub enum Fun {
    Add(i64),
    Mul(i64),
    Neg,
    /// The remainder that isn't negative. Where the number to divide by is below 1, each number is its own image.
    Rem(i64),
}

/// A test of numbers.
#[derive(Debug, Clone, Copy, PartialEq, Eq)]
pub enum Test {
    /// At least the number.
    Ge(i64),
    /// At most the number.
    Le(i64),
    Eq(i64),
    Even,
}

/// A test, or its opposite.
#[derive(Debug, Clone, Copy, PartialEq, Eq)]
pub struct Pred {
    /// Whether the test's answer is turned round.
    pub flip: bool,
    pub test: Test,
}

impl Mapper<i64, i64> for Fun {
    ghost use Rattle.sig_expr.specs.Functions.{image};

    ghost can_call = { λ fun. Unit {0} };

    ghost maps = { λ fun. image fun };

    fn call(&self, number: i64) -> i64 {
        match *self {
            Fun::Add(addend) => number.saturating_add(addend),
            Fun::Mul(factor) => number.saturating_mul(factor),
            Fun::Neg => number.saturating_neg(),
            Fun::Rem(divisor) if divisor > 0 => number.rem_euclid(divisor),
            Fun::Rem(_) => number,
        }
    }
}

impl Tester<i64> for Test {
    ghost use Rattle.sig_expr.specs.Functions.{is_so};

    ghost can_call = { λ test. Unit {0} };

    ghost passes = { λ test. is_so test };

    fn call(&self, number: i64) -> bool {
        match *self {
            Test::Ge(least) => number >= least,
            Test::Le(most) => number <= most,
            Test::Eq(wanted) => number == wanted,
            Test::Even => number.rem_euclid(2) == 0,
        }
    }
}

impl Tester<i64> for Pred {
    ghost use Rattle.sig_expr.specs.Functions as functions;

    ghost can_call = { λ pred. Unit {0} };

    ghost passes = { λ pred. functions.passes pred };

    fn call(&self, number: i64) -> bool {
        self.test.call(number) != self.flip
    }
}
