use sig_diff::Items;

/// A leaf of a view: its source, and the task that is told of it.
#[derive(Debug, Clone, Copy, PartialEq, Eq)]
pub struct LeafPlan {
    pub source: u32,
    pub task: u32,
}

pub type LeafPlans = Items<LeafPlan>;

/// The seat that polls each task.
pub type SeatNumbers = Items<u32>;

/// Whether each source is closed.
pub type ClosedList = Items<bool>;

/// What a machine is made for.
#[derive(Debug, Drop)]
pub struct FlagShape {
    /// How many sources it has.
    pub sources: u32,
    /// Whether each of them is closed from the start, as one without writers is.
    pub closed: ClosedList,
    pub leaves: LeafPlans,
    pub tasks: SeatNumbers,
    /// How many seats it has.
    pub seats: u32,
}
