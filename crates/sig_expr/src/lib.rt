//! View expressions over sources, and what they show: the view from scratch.
#![tactic(auto)]

mod bounds;
mod copying;
mod evaluation;
mod expressions;
mod functions;
mod leaf_counts;
mod leaf_lists;
mod lengths;
mod shown;

pub use bounds::{Caps, bound};
pub use evaluation::{Contents, eval_view};
pub use expressions::{MapExpr, SigBank, SigExpr, VecBank, VecExpr, View};
pub use functions::{Fun, Pred, Test};
pub use leaf_counts::{list_leaves, signal_leaves};
pub use leaf_lists::leaves;
pub use lengths::{MOST_SHOWN, fits};
pub use shown::Shown;
