ghost use Rattle.std.specs.Prelude.{◌≡◌, ℤ, Bool};

use sig_diff::{Mapper, Tester};
use std::marker::PhantomData;

/// A meaning for a closure: what it answers.
pub trait Named<U> {
    ghost answer: { ℤ → U };
}

/// A closure that answers what `N` says.
#[derive(Debug, Drop)]
pub struct Called<U, F, N> {
    closure: F,
    meaning: PhantomData<(U, N)>,
}

impl<U, F: Fn(i64) -> U, N: Named<U>> Called<U, F, N> {
    /// The closure as a function that operators call.
    pub fn new(closure: F) -> Called<U, F, N>
        requires callable { F.IsAlwaysCallable closure }
        requires answers { (x : ℤ) (u : U) → F.post closure x u → u ≡ N.answer x }
        ensures { ⟦<Called<U, F, N> as Mapper<i64, U>>⟧.can_call result }
    {
        Called {
            closure,
            meaning: PhantomData,
        }
    }
}

impl<U, F: Fn(i64) -> U, N: Named<U>> Mapper<i64, U> for Called<U, F, N> {
    ghost can_call = { λ c. F.IsAlwaysCallable c.closure × ((x : ℤ) (u : U) → F.post c.closure x u → u ≡ N.answer x) };

    ghost maps = { λ c x. N.answer x };

    fn call(&self, item: i64) -> U {
        (self.closure)(item)
    }
}

impl<F: Fn(i64) -> bool, N: Named<bool>> Tester<i64> for Called<bool, F, N> {
    ghost can_call = { λ c. F.IsAlwaysCallable c.closure × ((x : ℤ) (u : Bool) → F.post c.closure x u → u ≡ N.answer x) };

    ghost passes = { λ c x. N.answer x };

    fn call(&self, item: i64) -> bool {
        (self.closure)(item)
    }
}
