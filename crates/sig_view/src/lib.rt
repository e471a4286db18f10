//! Views that are polled over a port: what each poll gives, when it waits, and when the view ends.
#![tactic(auto)]

mod laws;
mod task;
mod watching;

pub use laws::{tasks_stay_ready, watched_views_stay_sound};
pub use sig_expr::fits;
pub use sig_rows::{Body, Positions, Row, Rows};
pub use task::{Polled, ViewTask};
pub use watching::{Watched, WatchedView};
