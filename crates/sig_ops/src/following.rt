ghost use Rattle.std.specs.Prelude.{◌≡◌, ◌≢◌, [], ◌++◌, List, OnErr, OnOk};
ghost use Rattle.sig_diff.specs.Replaying.{AreLawful};
ghost use Rattle.sig_ops.specs.Following.{after_all, all_given, CanFollow, Follows};

use crate::operators::VecOp;
use sig_diff::{Diffs, NoMemory};

/// Steps along all of the differences, and adds what the operator gives for them.
pub fn follow<O: VecOp>(
    op: &mut O,
    diffs: &Diffs<O::In>,
    given: &mut Diffs<O::Out>,
) -> Result<(), NoMemory>
    requires { CanFollow O.next O.can_step op.old diffs.now }
    ensures given { OnOk result (given.new ≡ given.old ++ all_given O.next O.gives op.old diffs.now) }
    ensures state { OnOk result (op.new ≡ after_all O.next op.old diffs.now) }
    ensures some { OnErr result (diffs.now ≢ []) }
    ensures law { (xs : List O.In) → O.stands_for op.old xs → AreLawful xs diffs.now
        → OnOk result (Follows O.stands_for O.view op.old xs diffs.now op.new (all_given O.next O.gives op.old diffs.now)) }
{
    'diffs: for diff in diffs.as_slice() {
        op.step(diff, given)?;
    }
    Ok(())
}
