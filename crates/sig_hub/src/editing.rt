//! One entry of a writer, in the turn of its source.
ghost use Rattle.std.specs.Prelude.{◌≡◌, ◌<◌, length, false, IfOk, IfErr};
ghost use Rattle.sig_flag.specs.Machines.{account};
ghost use Rattle.sig_hist.specs.Histories.{is_leave};
ghost use Rattle.sig_hub.specs.Passes.{pass_of, leave_by, Writes, IsStation, IsSamePass, HasMade, HasMadeNone, IsRefused, AreThoseToLeave, HasLeft};

use crate::turns::{HubFlags, HubSeat, begin, end};
use sig_hist::{Edit, EditError, Reply};
use std::sync::Wait;

/// Makes an edit of a source that the seat's pass writes, in the source's turn. The turn goes back whatever comes of it.
pub fn edit_in_turn<R: Wait>(
    rt: &R,
    flags: &HubFlags,
    seat: &mut HubSeat,
    number: u32,
    source: usize,
    edit: &Edit,
) -> Result<Reply, EditError>
    requires station { IsStation flags.now seat.old number }
    requires source { source < length flags.now.layout.plans }
    requires writes { Writes (pass_of flags.now seat.old) source }
    requires no_leave { is_leave edit.now ≡ false }
    ensures station { IsStation flags.now seat.new number }
    ensures same { IsSamePass (pass_of flags.now seat.old) (pass_of flags.now seat.new) source }
    ensures ok { IfOk result (λ reply. HasMade (pass_of flags.now seat.old) (pass_of flags.now seat.new) source (record { caller = number; edit = edit.now; reply = reply })) }
    ensures err { IfErr result (λ error. HasMadeNone (pass_of flags.now seat.old) (pass_of flags.now seat.new) source × IsRefused (pass_of flags.now seat.old) source error) }
{
    let mut state = begin(rt, flags, seat, source);
    let answer = state.edit(number, edit);
    end(flags, seat, source, state, answer.is_ok());
    answer
}

/// Leaves a source that the seat's pass writes, in the source's turn.
pub fn leave_in_turn<R: Wait>(
    rt: &R,
    flags: &HubFlags,
    seat: &mut HubSeat,
    number: u32,
    source: usize,
)
    requires station { IsStation flags.now seat.old number }
    requires source { source < length flags.now.layout.plans }
    requires writes { Writes (pass_of flags.now seat.old) source }
    ensures station { IsStation flags.now seat.new number }
    ensures same { IsSamePass (pass_of flags.now seat.old) (pass_of flags.now seat.new) source }
    ensures left { HasMade (pass_of flags.now seat.old) (pass_of flags.now seat.new) source (leave_by number) }
{
    let mut state = begin(rt, flags, seat, source);
    state.leave(number);
    end(flags, seat, source, state, true);
}

/// Leaves all sources that the seat's pass is in, in rising order.
pub fn leave_all<R: Wait>(
    rt: &R,
    flags: &HubFlags,
    seat: &mut HubSeat,
    number: u32,
    mut sources: Vec<usize>,
)
    requires station { IsStation flags.now seat.old number }
    requires sources { AreThoseToLeave (pass_of flags.now seat.old) sources.items }
    ensures station { IsStation flags.now seat.new number }
    ensures left { HasLeft (pass_of flags.now seat.old) (pass_of flags.now seat.new) }
{
    'sources: while let Some(source) = sources.pop() {
        leave_in_turn(rt, flags, seat, number, source);
    }
}
