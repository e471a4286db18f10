ghost use Rattle.std.specs.Prelude.{◌≡◌, ◌-◌, ◌^◌, map, min};
ghost use Rattle.sig_expr.specs.Bounds.{cap_of, greatest_bound, map_bound, vec_bound, view_bound};
ghost use Rattle.sig_expr.specs.Shapes.{map_tree, vec_tree, vec_trees, view_tree};

use crate::expressions::{MapExpr, VecExpr, View};
use sig_diff::Items;

/// The cap of each source.
pub type Caps = Items<u32>;

/// How many elements the view can have at most, where each source has a cap; 2^64 - 1 where it is that or more.
/// A source that has no cap counts as empty, and a signal as one.
pub fn bound(view: &View, caps: &Caps) -> u64
    ensures { result ≡ min (view_bound (cap_of caps.now) (view_tree view.now)) (2 ^ 64 - 1) }
{
    match view {
        View::Signal(_) => 1,
        View::Vector(list) | View::Enumerate(list) => list.bound(caps),
        View::Map(map) | View::Entries(map) => map.bound(caps),
    }
}

impl VecExpr {
    /// How many elements the list can have at most, counted as `bound` counts.
    pub fn bound(&self, caps: &Caps) -> u64
        ensures { result ≡ min (vec_bound (cap_of caps.now) (vec_tree self.now)) (2 ^ 64 - 1) }
    {
        list_bound(self, caps)
    }
}

impl MapExpr {
    /// How many entries the map can have at most, counted as `bound` counts.
    pub fn bound(&self, caps: &Caps) -> u64
        ensures { result ≡ min (map_bound (cap_of caps.now) (map_tree self.now)) (2 ^ 64 - 1) }
    {
        match self {
            MapExpr::Map(source) => cap_of(caps, *source),
            MapExpr::MapValue(_, of) => of.get().bound(caps),
        }
    }
}

#[cycle(bounds)]
fn list_bound(list: &VecExpr, caps: &Caps) -> u64
    ensures { result ≡ min (vec_bound (cap_of caps.now) (vec_tree list.now)) (2 ^ 64 - 1) }
{
    match list {
        VecExpr::Vector(source) => cap_of(caps, *source),
        VecExpr::Map(_, of) | VecExpr::Filter(_, of) | VecExpr::Sorted(_, of) => {
            list_bound(of.get(), caps)
        }
        VecExpr::FilterBy(of, _) | VecExpr::MapBy(of, _) => list_bound(of.get(), caps),
        VecExpr::Concat(first, second) => {
            list_bound(first.get(), caps).saturating_add(list_bound(second.get(), caps))
        }
        VecExpr::Flatten(of, bank) => {
            list_bound(of.get(), caps).saturating_mul(greatest_bound(bank.as_slice(), caps))
        }
        VecExpr::Pick(_, bank) => greatest_bound(bank.as_slice(), caps),
        VecExpr::Keys(of) | VecExpr::Values(of) => of.get().bound(caps),
    }
}

/// The greatest bound of a bank, and 0 where it is empty.
#[cycle(bounds)]
fn greatest_bound(bank: &[VecExpr], caps: &Caps) -> u64
    ensures { result ≡ min (greatest_bound (cap_of caps.now) (vec_trees (map vec_tree bank.now))) (2 ^ 64 - 1) }
{
    let mut greatest = 0;
    'lists: for list in bank {
        greatest = list_bound(list, caps).max(greatest);
    }
    greatest
}

/// The cap of a source, and 0 where it has none.
fn cap_of(caps: &Caps, source: usize) -> u64
    ensures { result ≡ min (cap_of caps.now source) (2 ^ 64 - 1) }
{
    match caps.as_slice().get(source) {
        Some(cap) => u64::from(*cap),
        None => 0,
    }
}
