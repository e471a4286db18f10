ghost use Rattle.std.specs.Prelude.{◌≡◌, ◌∷◌, [], IfOk};

use sig_diff::{Items, NoMemory};
use sig_hist::{Allowance, Allowances};
use std::alloc::Global;

/// The list of these items.
pub fn list<T: Copy + Drop>(alloc: Global, items: &[T]) -> Result<Items<T>, NoMemory>
    ensures { IfOk result (λ list. list ≡ items.now) }
{
    Ok(Items::from_vec(Vec::from_slice(alloc, items)?))
}

/// The list of two values.
pub fn two<T: Drop>(alloc: Global, first: T, second: T) -> Result<Items<T>, NoMemory>
    ensures { IfOk result (λ list. list ≡ first ∷ second ∷ []) }
{
    let mut list = Items::new(alloc);
    list.push(first)?;
    list.push(second)?;
    Ok(list)
}

/// One writer, who may make so many edits.
pub fn allowed(alloc: Global, writer: u32, edits: u32) -> Result<Allowances, NoMemory>
    ensures { IfOk result (λ allow. allow ≡ record { writer = writer; edits = edits } ∷ []) }
{
    let mut allow = Allowances::new(alloc);
    allow.push(Allowance { writer, edits })?;
    Ok(allow)
}

/// Lets a value go by a call: where a function does so itself, its proof goes over each variant within the
/// value, once for each way out.
pub fn let_go<T: Drop>(_value: T) {}
