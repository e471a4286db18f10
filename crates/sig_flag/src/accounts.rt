use sig_hist::{Condition, Entry, Met, SourcePlan};

/// What the seat of an account knows of one source. No value of it is made; a list stands as an array.
pub struct Knowledge {
    pub plan: SourcePlan,
    /// The entries that it has seen, from the first on.
    pub seen: [Entry; 0],
    /// How many entries the source had when it last looked.
    pub count: u32,
    /// The entries that it made.
    pub own: [Entry; 0],
}

/// How a seat stands to a leaf of its tasks. No value of it is made.
pub struct Watch {
    pub condition: Condition,
    /// How often it set the leaf's bell.
    pub arms: u64,
}

/// How a seat stands to one of its tasks. No value of it is made.
pub struct Hold {
    /// How many tokens of the task it has.
    pub tokens: u64,
    /// How often it found none.
    pub missed: u64,
    /// How often it told the task, while that wasn't told.
    pub raised: u64,
    /// How often it found that the task was told.
    pub found: u64,
}

/// What a seat knows and has. No value of it is made; a list stands as an array.
pub struct Account {
    /// The seat's number, which is its caller's in the histories.
    pub number: u32,
    /// The source whose turn it has.
    pub turn: Option<usize>,
    /// The held words that its takes found.
    pub met: [Met; 0],
    /// Of each source what it knows.
    pub knows: [Knowledge; 0],
    /// Of each leaf how it stands to it.
    pub watches: [Watch; 0],
    /// Of each task how it stands to it.
    pub holds: [Hold; 0],
    /// The leaves whose bells it has yet to ring.
    pub rings: [usize; 0],
    /// The tasks that it has yet to tell.
    pub tells: [usize; 0],
}
