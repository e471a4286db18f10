//! The program below its `main`: the words of the command line, playing a script, and the report.
#![tactic(auto)]

mod playing;
mod program;
mod reporting;
mod showing;
mod stage;
mod watching;
mod words;

pub use program::signals;
pub use sig_exec::{Gate, Open};
pub use words::Words;
