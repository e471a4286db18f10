ghost use Rattle.std.specs.Prelude.{◌≡◌, ◌++◌, IfOk, codes, decimal};
ghost use Rattle.serde_json.specs.View.{view, items_view};
ghost use Rattle.sig_script.specs.Paths.{below, first_in, here_unless};
ghost use Rattle.sig_script.specs.Finding.{Finds, Stops};

use itoa::Buffer;
use serde_json::Value;
use sig_diff::{NoMemory, Text};
use std::alloc::{AllocError, Global};

/// Why a walk stopped: at a fault, by its path from the value that was walked, or for want of memory.
#[derive(Debug, Drop)]
pub enum Stop {
    Fault(Text),
    NoMemory,
}

impl From<AllocError> for Stop {
    ghost use Rattle.std.specs.Prelude.{◌≡◌};
    ghost use Rattle.sig_script.specs.declared.paths.Stop.TheVariants.{NoMemory};

    ghost from_gives = { λ _ stop. stop ≡ NoMemory };

    fn from(_refused: AllocError) -> Stop {
        Stop::NoMemory
    }
}

/// What finds the first fault of a list's value.
pub trait Finder {
    ghost use Rattle.std.specs.Prelude.{ℕ, List, Option};
    ghost use Rattle.serde_json.specs.Data.{Data};

    ghost finds: { Self → ℕ → Data → Option (List ℕ) };

    /// The first fault of the value at a place.
    fn fault(&self, alloc: Global, place: usize, value: &Value) -> Result<(), Stop>
        ensures { Finds result (finds self.now place (view value.now)) };
}

/// The first fault among a list's values.
#[tactic(auto, using(crate::proofs::Finding::finding))]
pub fn first_in<F: Finder>(alloc: Global, finder: &F, values: &[Value]) -> Result<(), Stop>
    ensures { Finds result (first_in (F.finds finder.now) (items_view values.now)) }
{
    'values: for (place, value) in values.iter().enumerate() {
        below_place(alloc, place, finder.fault(alloc, place, value))?;
    }
    Ok(())
}

/// A fault at the value itself, unless a test is passed.
pub fn here_unless(alloc: Global, passed: bool) -> Result<(), Stop>
    ensures { Finds result (here_unless passed) }
{
    if passed {
        Ok(())
    } else {
        Err(Stop::Fault(Text::new(alloc)))
    }
}

/// The fault of a field's value, as one of the object.
pub fn below(alloc: Global, name: &str, walked: Result<(), Stop>) -> Result<(), Stop>
    ensures { (fault : _) → Finds walked fault → Finds result (below name.now fault) }
{
    match walked {
        Err(Stop::Fault(path)) => Err(prefixed(alloc, name.as_bytes(), path)),
        other => other,
    }
}

/// The fault of a list's value, as one of the list.
pub fn below_place(alloc: Global, place: usize, walked: Result<(), Stop>) -> Result<(), Stop>
    ensures { (fault : _) → Finds walked fault → Finds result (below (decimal place) fault) }
{
    match walked {
        Err(Stop::Fault(path)) => {
            Err(prefixed(alloc, Buffer::new().format(place).as_bytes(), path))
        }
        other => other,
    }
}

/// A fault with a path that begins with a step.
fn prefixed(alloc: Global, step: &[u8], path: Text) -> Stop
    ensures { Stops result (below step.now (Some path)) }
{
    match joined(alloc, step, path.as_slice()) {
        Ok(path) => Stop::Fault(path),
        Err(_) => Stop::NoMemory,
    }
}

/// A path that begins with a step.
fn joined(alloc: Global, step: &[u8], path: &[u8]) -> Result<Text, NoMemory>
    ensures { IfOk result (λ text. text ≡ codes "/" ++ step.now ++ path.now) }
{
    let mut text = Vec::with_capacity(alloc, 1 + step.len() + path.len())?;
    text.extend_from_slice(b"/")?;
    text.extend_from_slice(step)?;
    text.extend_from_slice(path)?;
    Ok(Text::from_vec(text))
}
