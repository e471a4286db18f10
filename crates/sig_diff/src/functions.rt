ghost use Rattle.std.specs.Prelude.{◌≡◌, Bool, map, filter, IfOk};

use crate::lists::{Items, NoMemory};
use std::alloc::Global;

/// A function of an item.
pub trait Mapper<T, U> {
    ghost can_call: { Self → Type 0 };

    ghost maps: { Self → T → U };

    fn call(&self, item: T) -> U
        requires { can_call self.now }
        ensures { result ≡ maps self.now item };
}

/// A test of an item, as a filter makes it.
pub trait Tester<T> {
    ghost can_call: { Self → Type 0 };

    ghost passes: { Self → T → Bool };

    fn call(&self, item: T) -> bool
        requires { can_call self.now }
        ensures { result ≡ passes self.now item };
}

/// The images of the items.
pub fn mapped<T: Copy, U: Drop, M: Mapper<T, U>>(
    alloc: Global,
    mapper: &M,
    items: &[T],
) -> Result<Items<U>, NoMemory>
    requires { M.can_call mapper.now }
    ensures { IfOk result (λ images. images ≡ map (M.maps mapper.now) items.now) }
{
    let mut images = Items::new(alloc);
    'items: for item in items {
        images.push(mapper.call(*item))?;
    }
    Ok(images)
}

/// The items that pass.
pub fn passing<T: Copy, P: Tester<T>>(
    alloc: Global,
    tester: &P,
    items: &[T],
) -> Result<Items<T>, NoMemory>
    requires { P.can_call tester.now }
    ensures { IfOk result (λ kept. kept ≡ filter (P.passes tester.now) items.now) }
{
    let mut kept = Items::new(alloc);
    'items: for item in items {
        if tester.call(*item) {
            kept.push(*item)?;
        }
    }
    Ok(kept)
}
