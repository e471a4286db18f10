//! The rows of a view: what each gives, and when rows are sound for the sources of the view's leaves.
#![tactic(auto)]

mod laws;
mod rows;

pub use laws::{ended_rows_show_the_end, rows_go_on, rows_show_the_view, rows_stay_sound};
pub use rows::{Body, Positions, Row, Rows};
