ghost use Rattle.std.specs.Prelude.{◌≡◌, ◌≢◌, ◌≤◌, [], length, IfOk, OnErr, OnOk};
ghost use Rattle.std.specs.List.{flat_map};
ghost use Rattle.sig_diff.specs.Replaying.{replayed};
ghost use Rattle.sig_expr.specs.Functions.{image, passes};
ghost use Rattle.sig_ops.specs.Tables.{filter_gives, map_gives};
ghost use Rattle.sig_sort.specs.Sorting.{sorted_gives, sorted_of};
ghost use Rattle.sig_rows.specs.Flow.{through};
ghost use Rattle.sig_rows.specs.Joins.{Goes};
ghost use Rattle.sig_nodes.specs.Nodes.{list_ops};
ghost use Rattle.sig_nodes.specs.Steps.{ListGone, ListMayGo};
ghost use Rattle.sig_walk.specs.Walking.{HasGone, HasNews, list_entered};

use crate::choosing::{chosen_anew, filtered_by, mapped_by, picked};
use crate::joining::{flattened, joined};
use crate::maps::{keys, values};
use crate::nodes::ListNode;
use sig_diff::{Diffs, NoMemory};
use sig_expr::{Fun, Pred};
use sig_hist::{Entering, Port};
use sig_ops::{FilterOp, MapOp, follow};
use sig_sort::SortedOp;
use sig_walk::Walk;
use std::alloc::Global;

impl ListNode {
    /// Takes its leaves along, from left to right, and gives what the list gives for that.
    #[cycle(walk)]
    pub fn step<P: Port>(
        &mut self,
        alloc: Global,
        port: &mut P,
        walk: &mut Walk,
    ) -> Result<Diffs<i64>, NoMemory>
        requires may_go { ListMayGo (P.state port.old) walk.old (list_ops self.old) }
        ensures same { P.is_same port.old port.new }
        ensures gone { HasGone (P.state port.old) (P.state port.new) walk.old walk.new }
        ensures taken { IfOk result (ListGone (P.state port.old) (P.state port.new) walk.old walk.new (list_ops self.old) (list_ops self.new)) }
        ensures news { OnErr result (HasNews (P.state port.new) walk.old) }
    {
        match self {
            ListNode::Source(leaf) => Ok(list_entered(alloc, walk.enter(port, *leaf)?)),
            ListNode::Map(op, of) => {
                let diffs = of.step(alloc, port, walk)?;
                mapped(alloc, op, &diffs)
            }
            ListNode::Filter(op, of) => {
                let diffs = of.step(alloc, port, walk)?;
                filtered(alloc, op, &diffs)
            }
            ListNode::Sorted(op, of) => {
                let diffs = of.step(alloc, port, walk)?;
                sorted(alloc, op, &diffs)
            }
            ListNode::FilterBy(op, of, bank) => {
                let diffs = of.step(alloc, port, walk)?;
                let mut values = Vec::new(alloc);
                bank.step(0..op.signal_count(), alloc, port, walk, &mut values)?;
                filtered_by(alloc, op, &diffs, values.as_slice())
            }
            ListNode::MapBy(op, of, bank) => {
                let diffs = of.step(alloc, port, walk)?;
                let mut values = Vec::new(alloc);
                bank.step(0..op.signal_count(), alloc, port, walk, &mut values)?;
                mapped_by(alloc, op, &diffs, values.as_slice())
            }
            ListNode::Concat(op, left, right) => {
                let lefts = left.step(alloc, port, walk)?;
                let rights = right.step(alloc, port, walk)?;
                joined(alloc, op, &lefts, &rights)
            }
            ListNode::Flatten(op, of, bank) => {
                let diffs = of.step(alloc, port, walk)?;
                let mut lists = Vec::new(alloc);
                bank.step(0..op.part_count(), alloc, port, walk, &mut lists)?;
                flattened(alloc, op, &diffs, lists.as_slice())
            }
            ListNode::Pick(op, of, bank) => {
                let chooser = of.step(alloc, port, walk)?;
                let given = chosen_anew(alloc, op, chooser)?;
                if bank.is_empty() {
                    return Ok(given);
                }
                let place = op.chosen();
                let diffs = bank.step_at(place, alloc, port, walk)?;
                picked(op, place, &diffs, given)
            }
            ListNode::Keys(op, of) => {
                let diffs = of.step(alloc, port, walk)?;
                keys(alloc, op, &diffs)
            }
            ListNode::Values(op, of) => {
                let diffs = of.step(alloc, port, walk)?;
                values(alloc, op, &diffs)
            }
        }
    }
}

/// What a map gives for differences of its list.
#[tactic(auto, using(crate::proofs::Giving::map_gives_all))]
fn mapped(
    alloc: Global,
    op: &mut MapOp<i64, i64, Fun>,
    diffs: &Diffs<i64>,
) -> Result<Diffs<i64>, NoMemory>
    ensures given { IfOk result (λ given. given ≡ flat_map (map_gives (image op.old)) diffs.now) }
    ensures state { OnOk result (op.new ≡ op.old) }
    ensures some { OnErr result (diffs.now ≢ []) }
{
    let mut given = Diffs::new(alloc);
    follow(op, diffs, &mut given)?;
    Ok(given)
}

/// What a filter gives for differences that its list takes.
fn filtered(
    alloc: Global,
    op: &mut FilterOp<i64, Pred>,
    diffs: &Diffs<i64>,
) -> Result<Diffs<i64>, NoMemory>
    requires { Goes 65536 op.old.items diffs.now }
    ensures given { IfOk result (λ given. given ≡ through (filter_gives (passes op.old.tester)) op.old.items diffs.now) }
    ensures state { OnOk result (op.new ≡ record op.old { items = replayed op.old.items diffs.now }) }
    ensures some { OnErr result (diffs.now ≢ []) }
{
    let mut kept = Diffs::new(alloc);
    follow(op, diffs, &mut kept)?;
    Ok(kept)
}

/// What a sorted list gives for differences that its list takes.
fn sorted(alloc: Global, op: &mut SortedOp<Fun>, diffs: &Diffs<i64>) -> Result<Diffs<i64>, NoMemory>
    requires { Goes 65536 op.old.items diffs.now }
    ensures given { IfOk result (λ given. given ≡ through (sorted_gives (image op.old.mapper)) op.old.items diffs.now) }
    ensures state { OnOk result (op.new ≡ sorted_of op.old.mapper (replayed op.old.items diffs.now)) }
    ensures some { OnErr result (diffs.now ≢ []) }
{
    let mut given = Diffs::new(alloc);
    follow(op, diffs, &mut given)?;
    Ok(given)
}

/// The differences of a vector among what enters.
fn list_entered(alloc: Global, entering: Entering) -> Diffs<i64>
    ensures { result ≡ list_entered entering }
{
    match entering {
        Entering::Vector(diffs) => diffs,
        _ => Diffs::new(alloc),
    }
}
