ghost use Rattle.std.specs.Prelude.{◌≡◌, ℕ, true, length, IfOk};
ghost use Rattle.sig_hist.specs.Plain.{source_at};
ghost use Rattle.sig_hist.specs.Sources.{IsIn};

use crate::fixtures::{allowed, list};
use sig_diff::{Content, LeafList};
use sig_expr::{VecExpr, View};
use sig_hist::{Edit, Free, Plain, Plans, Port, Reply, Rested, SourcePlan};
use sig_view::ViewTask;
use std::alloc::Global;
use std::test::Fail;

/// The port of a cell that the writer 7 may edit, with one leaf.
fn port(alloc: Global) -> Result<Plain, Fail>
    ensures { IfOk result (λ port. (length port.sources ≡ 1) × (length port.leaves ≡ 1) × IsIn (source_at port 0) 7) }
{
    let mut plans = Plans::new(alloc);
    plans.push(SourcePlan {
        start: Content::Cell(4),
        cap: 1,
        allow: allowed(alloc, 7, 3)?,
    })?;
    let mut leaves = LeafList::new(alloc);
    leaves.push(0)?;
    Ok(Plain::new(alloc, plans, leaves)?)
}

/// Looks at a leaf's source, sets the bell of the leaf, looks again and rests.
fn wait<P: Port>(port: &mut P, leaf: usize, at: u32, told: P::Told) -> Rested<P::Told>
    requires own { (P.state port.old).is_own leaf ≡ true }
    requires told { P.is_told port.old told ((P.state port.old).task leaf) }
    ensures own { (P.state port.new).is_own leaf ≡ true }
    ensures seen { (source : ℕ) → (P.state port.new).seen source ≡ (P.state port.old).seen source }
    ensures plan { (source : ℕ) → (P.state port.new).plan source ≡ (P.state port.old).plan source }
    ensures same { P.is_same port.old port.new }
{
    port.look(leaf);
    port.arm(leaf);
    port.look(leaf);
    port.rest(leaf, at, told)
}

#[test]
fn a_task_waits_until_there_is_news(rt: HostRuntime) -> Result<(), Fail> {
    let mut port = port(rt.alloc())?;
    assert!(rt; matches!(wait(&mut port, 0, 0, Free), Rested::Waiting));
    assert!(rt; port.edit(0, 7, &Edit::Set(5))? == Reply::Was(4));
    let news = match wait(&mut port, 0, 0, Free) {
        Rested::News { version, .. } => version.count == 1 && !version.closed,
        Rested::Waiting => false,
    };
    assert!(rt; news);
    Ok(())
}

#[test]
fn a_view_has_no_row_before_its_first_poll(rt: HostRuntime) -> Result<(), Fail> {
    let caps = list(rt.alloc(), &[3])?;
    let task = ViewTask::new(rt.alloc(), View::Vector(VecExpr::Vector(0)), &caps, 0)?;
    assert!(rt; !task.has_row() && !task.is_ended());
    assert!(rt; task.positions() == [0].as_slice());
    Ok(())
}
