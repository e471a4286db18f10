use sig_diff::{Diffs, Items, MapDiffs, Tagged};

/// What one poll of a view gave, and how many entries of each leaf's source it had followed by then.
#[derive(Debug, Drop)]
pub struct Row {
    /// One position for each leaf, from left to right.
    pub at: Positions,
    pub body: Body,
}

/// The differences from the row before, or from the empty list or map. They may be none.
#[derive(Debug, Drop)]
pub enum Body {
    /// The signal's value, where it gave one.
    Signal(Option<i64>),
    Vector(Diffs<i64>),
    Map(MapDiffs<i64>),
    /// A map's entries as pairs.
    Pairs(Diffs<(i64, i64)>),
    /// A list's elements with their tags.
    Tagged(Diffs<Tagged>),
    /// Every source that the view awaits is at its end, and so is the view.
    Ended,
}

pub type Positions = Items<u32>;

pub type Rows = Items<Row>;
