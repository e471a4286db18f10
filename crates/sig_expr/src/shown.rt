use sig_diff::{Entries, Items, Tagged};

/// What a view shows.
#[derive(Debug, Drop)]
pub enum Shown {
    Signal(i64),
    Vector(Items<i64>),
    Map(Entries<i64>),
    /// A map's entries, by rising keys.
    Pairs(Items<(i64, i64)>),
    Tagged(Items<Tagged>),
}
