use sig_diff::Text;
use thiserror::Error;

/// Why a document gave no script.
#[derive(Debug, Drop, Error)]
pub enum ScriptError {
    /// Refusal 1: the bytes are no JSON document.
    #[error("no JSON document")]
    NotJson,
    /// Refusal 2: the value at the path isn't of the kind that is asked, or the object has other fields.
    #[error("another value is asked")]
    Shape { path: Text },
    /// Refusal 3: the name at the path was used before, or doesn't stand for what is asked.
    #[error("another name is asked")]
    Name { path: Text },
    /// Refusal 4: the list or the expression at the path passes a limit.
    #[error("a limit is passed")]
    Limit { path: Text },
    /// Refusal 5: what the expression or the share at the path shows can get too big.
    #[error("a list can get too big")]
    TooBig { path: Text },
    /// Refusal 6: the writer of the event at the place in the schedule has nothing left to do.
    #[error("event {place} comes after the writer's last")]
    Schedule { place: u32 },
    /// Refusal 8: what the document asks for isn't built yet, at the path.
    #[error("not built yet")]
    NotBuilt { path: Text },
    #[error("out of memory")]
    NoMemory,
}
