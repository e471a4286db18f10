ghost use Rattle.std.specs.Prelude.{◌≡◌, IfOk};

use crate::lists::NoMemory;
use std::alloc::Global;
use std::marker::Model;

/// A value in a block of its own. Contracts see it as the value.
#[derive(Debug, Drop)]
pub struct Boxed<T> {
    inner: Box<T>,
}

impl<T> Model for Boxed<T> {
    ghost Value = { T };

    ghost view = { λ boxed. boxed.inner.value };
}

impl<T> Boxed<T> {
    pub fn get(&self) -> &T
        ensures { result.now ≡ self.now }
    {
        &self.inner
    }

    pub fn into_inner(self) -> T
        ensures { result ≡ self }
    {
        let Boxed { inner } = self;
        Box::into_inner(inner)
    }

    /// What the value's block was allocated by.
    pub fn alloc(&self) -> Global {
        *Box::allocator(&self.inner)
    }
}

impl<T: Drop> Boxed<T> {
    /// Puts a value in a block of its own.
    pub fn new(alloc: Global, value: T) -> Result<Boxed<T>, NoMemory>
        ensures { IfOk result (λ boxed. boxed ≡ value) }
    {
        Ok(Boxed {
            inner: Box::new(alloc, value)?,
        })
    }
}
