use sig_diff::{Content, Items, NoMemory, TryCopy};
use thiserror::Error;

/// How many edits of a source a writer may make.
#[derive(Debug, Clone, Copy, PartialEq, Eq)]
pub struct Allowance {
    pub writer: u32,
    pub edits: u32,
}

pub type Allowances = Items<Allowance>;

/// What a source starts with, and who may edit it.
#[derive(Debug, Drop)]
pub struct SourcePlan {
    pub start: Content,
    /// The most elements that it may have.
    pub cap: u32,
    pub allow: Allowances,
}

pub type Plans = Items<SourcePlan>;

/// Why an edit was refused.
#[derive(Debug, Clone, Copy, PartialEq, Eq, Error)]
pub enum EditError {
    /// The caller has made all the edits that it may make of this source, which are so many.
    #[error("all {made} edits were made")]
    Spent { made: u32 },
    #[error("memory was wanting")]
    NoMemory,
}

impl From<NoMemory> for EditError {
    ghost use Rattle.std.specs.Prelude.{◌≡◌};
    ghost use Rattle.sig_hist.specs.declared.plans.EditError.TheVariants.{NoMemory};

    ghost from_gives = { λ _ error. error ≡ NoMemory };

    fn from(_error: NoMemory) -> Self {
        EditError::NoMemory
    }
}

impl TryCopy for SourcePlan {
    fn copy(&self) -> Result<Self, NoMemory> {
        Ok(SourcePlan {
            start: self.start.copy()?,
            cap: self.cap,
            allow: self.allow.copy()?,
        })
    }
}
