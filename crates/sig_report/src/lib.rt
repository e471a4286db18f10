//! Reports of what a script did, and their text.
#![tactic(auto)]

mod law;
mod printing;
mod report;
mod text;

pub use law::play_is_lawful;
pub use report::{Report, SourceReport, SourceReports, ViewReport, ViewReports};
pub use text::report_text;
