//! The outside, as the program sees it: sources of bytes, sinks for bytes, and the count of faults that each keeps.
#![tactic(auto)]

mod adapters;
mod memory;
mod reading;
mod traits;
mod writing;

pub use adapters::{FromReader, ToWriter};
pub use memory::{Bytes, Page};
pub use reading::{ReadError, read_all};
pub use traits::{Failed, Sink, Source};
pub use writing::write_all;
