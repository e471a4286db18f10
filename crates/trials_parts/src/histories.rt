ghost use Rattle.std.specs.Prelude.{◌≡◌, ◌∷◌, [], pos, false, IfOk};
ghost use Rattle.sig_hist.specs.Changes.{size_of};
ghost use Rattle.sig_hist.specs.Histories.{is_leave};
ghost use Rattle.sig_hist.specs.Sources.{IsIn};

use crate::fixtures::{allowed, list};
use sig_diff::{Content, Entries, Items, TryCopy, VecDiff};
use sig_hist::{Edit, EditError, Kept, Reply, SourcePlan, SourceState, execute};
use std::alloc::Global;
use std::process::Abort;
use std::test::Fail;

const FULL: Reply = Reply::Long { len: 1 };

/// A vector of one number.
fn single(alloc: Global) -> Result<Content, Fail>
    ensures { IfOk result (λ content. size_of content ≡ 1) }
{
    let mut items = Items::new(alloc);
    items.push(1)?;
    Ok(Content::Vector(items))
}

/// Whether an edit of the vector [1], which has room for no more, is answered so.
fn answers(alloc: Global, diff: VecDiff<i64>, wanted: Reply) -> Result<bool, Fail> {
    let mut vector = single(alloc)?;
    let reply = execute(&mut vector, 1, &Edit::Vector(diff))?;
    Ok(reply == wanted)
}

#[test]
fn a_full_vector_looks_at_the_range_before_the_cap(rt: HostRuntime) -> Result<(), Fail> {
    let near = VecDiff::InsertAt { index: 1, value: 2 };
    let far = VecDiff::InsertAt { index: 2, value: 2 };
    let values = list(rt.alloc(), &[2, 3])?;
    assert!(rt; answers(rt.alloc(), VecDiff::Push { value: 2 }, FULL)?);
    assert!(rt; answers(rt.alloc(), near, FULL)?);
    assert!(rt; answers(rt.alloc(), far, Reply::OutOfRange { len: 1 })?);
    assert!(rt; answers(rt.alloc(), VecDiff::Replace { values }, FULL)?);
    Ok(())
}

/// The map from 1 to 10.
fn ten(alloc: Global) -> Result<Entries<i64>, Fail>
    ensures { IfOk result (λ entries. entries ≡ (pos 1, pos 10) ∷ []) }
{
    let mut entries = Entries::new(alloc);
    entries.push((1, 10))?;
    Ok(entries)
}

/// Whether an edit of the map from 1 to 10, which has room for no more, is answered so.
fn answers_map(alloc: Global, edit: &Edit, wanted: Reply) -> Result<bool, Fail> {
    let mut map = Content::Map(ten(alloc)?);
    let reply = execute(&mut map, 1, edit)?;
    Ok(reply == wanted)
}

#[test]
fn a_full_map_takes_no_key_more(rt: HostRuntime) -> Result<(), Fail> {
    let mut two = ten(rt.alloc())?;
    two.push((2, 5))?;
    assert!(rt; answers_map(rt.alloc(), &Edit::Put(2, 5), FULL)?);
    assert!(rt; answers_map(rt.alloc(), &Edit::Put(1, 5), Reply::Was(10))?);
    assert!(rt; answers_map(rt.alloc(), &Edit::Load(two), FULL)?);
    Ok(())
}

/// The vector [1], which has room for no more, and which the writer 7 may edit once.
fn source(alloc: Global) -> Result<SourceState, Fail>
    ensures { IfOk result (λ source. IsIn source 7) }
{
    let plan = SourcePlan {
        start: single(alloc)?,
        cap: 1,
        allow: allowed(alloc, 7, 1)?,
    };
    Ok(SourceState::new(alloc, plan)?)
}

/// Makes an edit of the writer 7, and enters it.
#[tactic(auto, using(sig_hist::proofs::Entries::stays_in))]
fn enter<R: Abort>(rt: &R, source: &mut SourceState, edit: &Edit, wanted: Reply) -> Result<(), Fail>
    requires is_in { IsIn source.old 7 }
    requires no_leave { is_leave edit.now ≡ false }
    ensures { IsIn source.new 7 }
{
    let reply = source.edit(7, edit)?;
    assert!(rt; reply == wanted);
    Ok(())
}

#[test]
fn a_writer_makes_its_edits_and_leaves(rt: HostRuntime) -> Result<(), Fail> {
    let mut vector = source(rt.alloc())?;
    let push = Edit::Vector(VecDiff::Push { value: 2 });
    enter(&rt, &mut vector, &push, FULL)?;
    let second = vector.edit(7, &push);
    assert!(rt; second == Err(EditError::Spent { made: 1 }) && !vector.is_closed());
    vector.leave(7);
    assert!(rt; vector.count() == 2 && vector.is_closed());
    let entry = vector.entry(0).copy()?;
    assert!(rt; entry.caller == 7 && entry.reply == FULL);
    Ok(())
}
