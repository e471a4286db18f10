ghost use Rattle.std.specs.Prelude.{◌≡◌, ◌≢◌, ◌≤◌, [], IfOk, OnErr, OnOk};
ghost use Rattle.sig_expr.specs.Awaited.{awaits};
ghost use Rattle.sig_expr.specs.Leaves.{leaves};
ghost use Rattle.sig_hist.specs.Sources.{AreDistinct};
ghost use Rattle.sig_diff.specs.Replaying.{AreLawful, StaysShort};
ghost use Rattle.sig_ops.specs.Enumerating.{enumerate_gives, enumeration_next, values_of};
ghost use Rattle.sig_ops.specs.Following.{after_all, all_given};
ghost use Rattle.sig_rows.specs.Flow.{flow, tags_after, with_tags};
ghost use Rattle.sig_expr.specs.Lengths.{longest};
ghost use Rattle.sig_nodes.specs.Nodes.{op_tags, view_ops, view_tree_of, ViewStands};
ghost use Rattle.sig_hist.specs.Ways.{contents_at, ways};
ghost use Rattle.sig_walk.specs.Walking.{CanWalk, HasGone, HasLeaves, HasNews, HasWalked, cap_at, sources_in};

use crate::maps::pairs;
use crate::nodes::ViewNode;
use sig_diff::{Diffs, NoMemory, Tagged};
use sig_hist::Port;
use sig_ops::{EnumerateOp, VecOp};
use sig_rows::Body;
use sig_walk::Walk;
use std::alloc::{AllocError, Global};

impl ViewNode {
    /// Takes the view's leaves along, from left to right, and gives what the view gives for that.
    pub fn step<P: Port>(
        &mut self,
        alloc: Global,
        port: &mut P,
        walk: &mut Walk,
    ) -> Result<Body, NoMemory>
        requires can { CanWalk (P.state port.old) walk.old }
        requires leaves { HasLeaves walk.old (leaves (view_tree_of (view_ops self.old))) }
        requires apart { AreDistinct (leaves (view_tree_of (view_ops self.old))) }
        requires short { longest (cap_at (sources_in (P.state port.old) walk.old)) (view_tree_of (view_ops self.old)) ≤ 65536 }
        requires stands { ViewStands (contents_at (sources_in (P.state port.old) walk.old) walk.old.positions) (view_ops self.old) }
        ensures same { P.is_same port.old port.new }
        ensures gone { HasGone (P.state port.old) (P.state port.new) walk.old walk.new }
        ensures walked { OnOk result (HasWalked (P.state port.old) (P.state port.new) walk.old walk.new (awaits (contents_at (sources_in (P.state port.new) walk.new) walk.new.positions) (view_tree_of (view_ops self.old)))) }
        ensures flow { IfOk result (λ body. body ≡ with_tags (op_tags (view_ops self.old)) (flow (ways (sources_in (P.state port.new) walk.new) walk.old.positions walk.new.positions) (view_tree_of (view_ops self.old)))) }
        ensures tags { OnOk result (op_tags (view_ops self.new) ≡ tags_after (op_tags (view_ops self.old)) (flow (ways (sources_in (P.state port.new) walk.new) walk.old.positions walk.new.positions) (view_tree_of (view_ops self.old)))) }
        ensures stands { OnOk result (ViewStands (contents_at (sources_in (P.state port.new) walk.new) walk.new.positions) (view_ops self.new)) }
        ensures tree { OnOk result (view_tree_of (view_ops self.new) ≡ view_tree_of (view_ops self.old)) }
        ensures news { OnErr result (HasNews (P.state port.new) walk.old) }
    {
        match self {
            ViewNode::Signal(of) => Ok(Body::Signal(of.step(alloc, port, walk)?)),
            ViewNode::Vector(of) => Ok(Body::Vector(of.step(alloc, port, walk)?)),
            ViewNode::Map(of) => Ok(Body::Map(of.step(alloc, port, walk)?)),
            ViewNode::Entries(op, of) => {
                let diffs = of.step(alloc, port, walk)?;
                Ok(Body::Pairs(pairs(alloc, op, &diffs)?))
            }
            ViewNode::Enumerate(op, of) => {
                let diffs = of.step(alloc, port, walk)?;
                Ok(Body::Tagged(tagged(alloc, op, &diffs)?))
            }
        }
    }
}

/// What a list with tags gives for differences of its list. Where tags could run out, that counts as want of memory.
fn tagged(
    alloc: Global,
    op: &mut EnumerateOp,
    diffs: &Diffs<i64>,
) -> Result<Diffs<Tagged>, NoMemory>
    requires lawful { AreLawful (values_of op.old.elements) diffs.now }
    requires short { StaysShort 65536 (values_of op.old.elements) diffs.now }
    ensures given { IfOk result (λ given. given ≡ all_given enumeration_next enumerate_gives op.old diffs.now) }
    ensures state { OnOk result (op.new ≡ after_all enumeration_next op.old diffs.now) }
    ensures some { OnErr result (diffs.now ≢ []) }
{
    let mut given = Diffs::new(alloc);
    'diffs: for diff in diffs.as_slice() {
        if !op.has_tags() {
            return Err(AllocError);
        }
        op.step(diff, &mut given)?;
    }
    Ok(given)
}
