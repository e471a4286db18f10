//! Operators: views of a list that follow it by differences.
#![tactic(auto)]

mod called;
mod enumerating;
mod filtering;
mod following;
mod mapping;
mod operators;
mod signals;

pub use called::{Called, Named};
pub use enumerating::EnumerateOp;
pub use filtering::{FilterOp, filtered};
pub use following::follow;
pub use mapping::{MapOp, image};
pub use operators::VecOp;
pub use signals::{Dedupe, LenOp, SumOp, resized};
