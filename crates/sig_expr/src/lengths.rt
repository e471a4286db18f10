ghost use Rattle.std.specs.Prelude.{◌≡◌, ◌-◌, ◌^◌, map, min, nat_le};
ghost use Rattle.sig_expr.specs.Bounds.{cap_of};
ghost use Rattle.sig_expr.specs.Lengths.{longest, sig_longest, sigs_longest, vec_longest, vecs_longest};
ghost use Rattle.sig_expr.specs.Shapes.{sig_tree, sig_trees, vec_tree, vec_trees, view_tree};

use crate::bounds::Caps;
use crate::expressions::{SigExpr, VecExpr, View};

/// The longest list or map that a part of a view may show.
pub const MOST_SHOWN: u64 = 65536;

/// Whether no list and no map that is a part of a view gets longer than 65,536 where each source stays within its
/// cap. A source that has no cap counts as empty.
///
/// A flatten over a list of at most 256, whose lists have at most 256, fits, and so does the sum of what it shows;
/// with 257 in place of one of these neither does, though a sum shows but a number.
pub fn fits(view: &View, caps: &Caps) -> bool
    ensures { result ≡ nat_le (longest (cap_of caps.now) (view_tree view.now)) 65536 }
{
    longest(view, caps) <= MOST_SHOWN
}

/// How long the longest part of a view can get; 2^64 - 1 where it is that or more.
fn longest(view: &View, caps: &Caps) -> u64
    ensures { result ≡ min (longest (cap_of caps.now) (view_tree view.now)) (2 ^ 64 - 1) }
{
    match view {
        View::Signal(signal) => longest_in_signal(signal, caps),
        View::Vector(list) | View::Enumerate(list) => longest_in_list(list, caps),
        View::Map(map) | View::Entries(map) => map.bound(caps),
    }
}

#[cycle(lengths)]
fn longest_in_signal(signal: &SigExpr, caps: &Caps) -> u64
    ensures { result ≡ min (sig_longest (cap_of caps.now) (sig_tree signal.now)) (2 ^ 64 - 1) }
{
    match signal {
        SigExpr::Cell(_) => 0,
        SigExpr::Map(_, of) | SigExpr::Dedupe(of) => longest_in_signal(of.get(), caps),
        SigExpr::Switch(of, bank) => {
            longest_in_signal(of.get(), caps).max(longest_in_signals(bank.as_slice(), caps))
        }
        SigExpr::Len(of) | SigExpr::Sum(of) => longest_in_list(of.get(), caps),
        SigExpr::Key(_, _, of) => of.get().bound(caps),
    }
}

#[cycle(lengths)]
fn longest_in_list(list: &VecExpr, caps: &Caps) -> u64
    ensures { result ≡ min (vec_longest (cap_of caps.now) (vec_tree list.now)) (2 ^ 64 - 1) }
{
    match list {
        VecExpr::Vector(_) | VecExpr::Keys(_) | VecExpr::Values(_) => list.bound(caps),
        VecExpr::Map(_, of) | VecExpr::Filter(_, of) | VecExpr::Sorted(_, of) => {
            longest_in_list(of.get(), caps)
        }
        VecExpr::FilterBy(of, bank) | VecExpr::MapBy(of, bank) => {
            longest_in_list(of.get(), caps).max(longest_in_signals(bank.as_slice(), caps))
        }
        VecExpr::Concat(first, second) => list.bound(caps).max(longest_in_list(
            first.get(),
            caps,
        ).max(longest_in_list(second.get(), caps))),
        VecExpr::Flatten(of, bank) => list.bound(caps).max(longest_in_list(of.get(), caps).max(
            longest_in_lists(bank.as_slice(), caps),
        )),
        VecExpr::Pick(of, bank) => {
            longest_in_signal(of.get(), caps).max(longest_in_lists(bank.as_slice(), caps))
        }
    }
}

#[cycle(lengths)]
fn longest_in_signals(bank: &[SigExpr], caps: &Caps) -> u64
    ensures { result ≡ min (sigs_longest (cap_of caps.now) (sig_trees (map sig_tree bank.now))) (2 ^ 64 - 1) }
{
    let mut greatest = 0;
    'signals: for signal in bank {
        greatest = longest_in_signal(signal, caps).max(greatest);
    }
    greatest
}

#[cycle(lengths)]
fn longest_in_lists(bank: &[VecExpr], caps: &Caps) -> u64
    ensures { result ≡ min (vecs_longest (cap_of caps.now) (vec_trees (map vec_tree bank.now))) (2 ^ 64 - 1) }
{
    let mut greatest = 0;
    'lists: for list in bank {
        greatest = longest_in_list(list, caps).max(greatest);
    }
    greatest
}
