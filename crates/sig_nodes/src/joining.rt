ghost use Rattle.std.specs.Prelude.{◌≡◌, ◌≢◌, [], ◌++◌, ◌<◌, IfOk, OnErr, OnOk};
ghost use Rattle.std.specs.List.{fold};
ghost use Rattle.sig_flat.specs.Flattening.{outer_gives, outer_next};
ghost use Rattle.sig_flat.specs.Joining.{Halves, joined_next};
ghost use Rattle.sig_rows.specs.Flow.{after_part, given_along, half_flow, part_flow};
ghost use Rattle.sig_rows.specs.Joins.{MayJoin, MayTakeHalf, MayTakeOuter, MayTakePart};
ghost use Rattle.sig_nodes.specs.Banks.{MayFlattenGiven, MayTakeGiven, blocks_give, blocks_next};

use crate::banks::GivenList;
use sig_diff::{Diffs, NoMemory};
use sig_flat::{Concat, Flatten};
use std::alloc::Global;

/// What two lists, one behind the other, give for differences of the left one, and then for those of the right one.
pub fn joined(
    alloc: Global,
    op: &mut Concat,
    lefts: &Diffs<i64>,
    rights: &Diffs<i64>,
) -> Result<Diffs<i64>, NoMemory>
    requires { MayJoin op.old lefts.now rights.now }
    ensures given { IfOk result (λ given. given ≡ half_flow 0 op.old lefts.now ++ half_flow 1 (fold (λ (op : Halves). joined_next op 0) op.old lefts.now) rights.now) }
    ensures state { OnOk result (op.new ≡ fold (λ (op : Halves). joined_next op 1) (fold (λ (op : Halves). joined_next op 0) op.old lefts.now) rights.now) }
    ensures some { OnErr result (lefts.now ≡ [] → rights.now ≢ []) }
{
    let mut given = Diffs::new(alloc);
    give_half(op, 0, lefts, &mut given)?;
    give_half(op, 1, rights, &mut given)?;
    Ok(given)
}

/// Adds what two lists give for differences of one of them.
fn give_half(
    op: &mut Concat,
    child: usize,
    diffs: &Diffs<i64>,
    given: &mut Diffs<i64>,
) -> Result<(), NoMemory>
    requires child { child < 2 }
    requires may_take { MayTakeHalf child op.old diffs.now }
    ensures given { OnOk result (given.new ≡ given.old ++ half_flow child op.old diffs.now) }
    ensures state { OnOk result (op.new ≡ fold (λ (op : Halves). joined_next op child) op.old diffs.now) }
    ensures some { OnErr result (diffs.now ≢ []) }
{
    'diffs: for diff in diffs.as_slice() {
        op.step_bank(child, diff, given)?;
    }
    Ok(())
}

/// What blocks give for differences of the outer list, and then for those that lists of the bank gave.
pub fn flattened(
    alloc: Global,
    op: &mut Flatten,
    diffs: &Diffs<i64>,
    lists: &[GivenList],
) -> Result<Diffs<i64>, NoMemory>
    requires { MayFlattenGiven op.old diffs.now lists.now }
    ensures given { IfOk result (λ given. given ≡ given_along outer_gives outer_next op.old diffs.now ++ given_along blocks_give blocks_next (fold outer_next op.old diffs.now) lists.now) }
    ensures state { OnOk result (op.new ≡ fold blocks_next (fold outer_next op.old diffs.now) lists.now) }
    ensures some { OnErr result (diffs.now ≡ [] → lists.now ≢ []) }
{
    let mut given = Diffs::new(alloc);
    give_outer(op, diffs, &mut given)?;
    give_parts(op, lists, &mut given)?;
    Ok(given)
}

/// Adds what blocks give for differences of the outer list.
fn give_outer(op: &mut Flatten, diffs: &Diffs<i64>, given: &mut Diffs<i64>) -> Result<(), NoMemory>
    requires may_take { MayTakeOuter op.old diffs.now }
    ensures given { OnOk result (given.new ≡ given.old ++ given_along outer_gives outer_next op.old diffs.now) }
    ensures state { OnOk result (op.new ≡ fold outer_next op.old diffs.now) }
    ensures some { OnErr result (diffs.now ≢ []) }
{
    'diffs: for diff in diffs.as_slice() {
        op.step_list(diff, given)?;
    }
    Ok(())
}

/// Adds what blocks give for the differences that lists of the bank gave.
fn give_parts(op: &mut Flatten, lists: &[GivenList], given: &mut Diffs<i64>) -> Result<(), NoMemory>
    requires may_take { MayTakeGiven op.old lists.now }
    ensures given { OnOk result (given.new ≡ given.old ++ given_along blocks_give blocks_next op.old lists.now) }
    ensures state { OnOk result (op.new ≡ fold blocks_next op.old lists.now) }
    ensures some { OnErr result (lists.now ≢ []) }
{
    'lists: for list in lists {
        give_part(op, list.place, &list.diffs, given)?;
    }
    Ok(())
}

/// Adds what blocks give for differences of the list at a place of the bank.
fn give_part(
    op: &mut Flatten,
    place: usize,
    diffs: &Diffs<i64>,
    given: &mut Diffs<i64>,
) -> Result<(), NoMemory>
    requires may_take { MayTakePart place op.old diffs.now }
    ensures given { OnOk result (given.new ≡ given.old ++ part_flow place op.old diffs.now) }
    ensures state { OnOk result (op.new ≡ after_part place op.old diffs.now) }
{
    'diffs: for diff in diffs.as_slice() {
        op.step_bank(place, diff, given)?;
    }
    Ok(())
}
