ghost use Rattle.std.specs.Prelude.{◌≡◌, ◌≤◌, IfOk, OnOk};
ghost use Rattle.sig_expr.specs.Bounds.{cap_of};
ghost use Rattle.sig_expr.specs.Leaves.{numbered};
ghost use Rattle.sig_expr.specs.Lengths.{longest};
ghost use Rattle.sig_expr.specs.Shapes.{view_tree};
ghost use Rattle.sig_hist.specs.Plain.{known};
ghost use Rattle.sig_report.specs.Playing.{polled};
ghost use Rattle.sig_run.specs.Watching.{IsFollowing, sources_under, tree_of, watched_of};
ghost use Rattle.sig_view.specs.Tasks.{expression_of};
ghost use Rattle.sig_view.specs.Watching.{IsUnpolled};
ghost use Rattle.sig_walk.specs.Walking.{HasSeenMore};

use sig_diff::{NoMemory, TryCopy};
use sig_expr::{Caps, View};
use sig_hist::{Free, Plain};
use sig_view::{Watched, WatchedView};
use std::alloc::{AllocError, Global};

/// A copy of the view before its first row. Its leaf i is the port's leaf `first_leaf` + i.
pub fn watch(
    alloc: Global,
    view: &View,
    caps: &Caps,
    first_leaf: usize,
) -> Result<WatchedView, NoMemory>
    requires { longest (cap_of caps.now) (view_tree view.now) ≤ 65536 }
    ensures { IfOk result (IsUnpolled view.now caps.now first_leaf) }
{
    WatchedView::new(alloc, view.copy()?, caps, first_leaf)
}

/// A poll of a view on the port of one thread. One that has ended stays as it is.
pub fn poll(alloc: Global, port: &mut Plain, view: &mut WatchedView) -> Result<(), NoMemory>
    requires { IsFollowing port.old view.old }
    ensures sources { port.new.sources ≡ port.old.sources }
    ensures more { HasSeenMore (known port.old) (known port.new) }
    ensures polled { OnOk result (watched_of view.new
        ≡ polled (numbered (tree_of view.old)) (sources_under port.old.sources (tree_of view.old)) (watched_of view.old)) }
    ensures view { OnOk result (expression_of view.new.task ≡ expression_of view.old.task) }
    ensures following { OnOk result (IsFollowing port.new view.new) }
{
    if view.is_ended() {
        return Ok(());
    }
    match view.poll(alloc, port, Free) {
        Watched::Row { .. } => Ok(()),
        Watched::Pending => Ok(()),
        Watched::Ended => Ok(()),
        // The port of one thread finds no word held.
        Watched::Again { .. } => unreachable!(),
        Watched::NoMemory => Err(AllocError),
    }
}
