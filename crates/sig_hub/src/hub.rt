ghost use Rattle.std.specs.Prelude.{◌≡◌, ◌<◌, length, false, IfOk, IfErr};
ghost use Rattle.sig_hist.specs.Histories.{is_leave};
ghost use Rattle.sig_hub.specs.Hubs.{IsMade};
ghost use Rattle.sig_hub.specs.Passes.{IsOf, Writes, HasTold, IsSamePass, HasMade, HasMadeNone, IsRefused, HasLeft};
ghost use Rattle.sig_hub.specs.Plans.{IsSound};

use crate::editing::{edit_in_turn, leave_all};
use crate::passes::{Left, PollPasses, WriterPass, WriterPasses};
use crate::plans::HubPlan;
use crate::starting::{drafts_of, flags_of, pollers_of};
use sig_diff::{NoMemory, TryCopy};
use sig_flag::Flags;
use sig_hist::{Edit, EditError, Reply, SourceState};
use std::alloc::Global;
use std::marker::Model;
use std::sync::Wait;

/// Sources that several threads edit, each with a pass of its own.
///
/// Of one empty vector that one writer may edit once: an `edit` of it that pushes 7 answers `Fine`, and a second one `Spent { made: 1 }`. After
/// the writer's `leave` the hub's `finish` gives the vector with the history push 7, leave.
#[derive(Drop)]
pub struct Hub {
    pub(crate) alloc: Global,
    pub(crate) flags: Flags<SourceState>,
    pub(crate) writers: u32,
    pub(crate) pollers: u32,
}

impl Model for Hub {
    ghost use Rattle.sig_hub.specs.Hubs.{HubState, IsHub};

    ghost Value = { HubState };

    ghost view = { λ hub. record { machine = hub.flags; writers = hub.writers; pollers = hub.pollers } };

    ghost invariant = { λ hub. IsHub record { machine = hub.flags; writers = hub.writers; pollers = hub.pollers } };
}

/// The passes of a hub, in the order of their numbers.
#[derive(Drop)]
pub struct Passes {
    pub writers: WriterPasses,
    pub pollers: PollPasses,
}

impl Hub {
    /// The hub of a plan, and its passes.
    pub fn new(alloc: Global, plan: HubPlan) -> Result<(Hub, Passes), NoMemory>
        requires sound { IsSound plan }
        ensures { IfOk result (λ made. IsMade plan made.0 made.1) }
    {
        let HubPlan {
            sources,
            leaves,
            tasks,
            pollers,
            writers,
        } = plan;
        let drafts = drafts_of(alloc, sources.as_slice(), writers)?;
        let tasks = pollers_of(alloc, tasks.as_slice(), writers)?;
        let (flags, seats) = flags_of(alloc, sources, leaves, tasks, writers + pollers)?;
        let hub = Hub {
            alloc,
            flags,
            writers,
            pollers,
        };
        let passes = hub.passes(seats, drafts)?;
        Ok((hub, passes))
    }

    /// Makes an edit of a source, once the pass gets its turn. The entry stands in the source's history after all that the
    /// pass had seen of it, with the reply that is right there. After a refusal nothing was made: the pass has made all the
    /// edits that it may, or memory was wanting. Whoever waits for the source is told.
    pub fn edit<R: Wait>(
        &self,
        rt: &R,
        pass: &mut WriterPass,
        source: usize,
        edit: &Edit,
    ) -> Result<Reply, EditError>
        requires hub { IsOf self.now.machine pass.old }
        requires source { source < length self.now.machine.layout.plans }
        requires writes { Writes pass.old source }
        requires no_leave { is_leave edit.now ≡ false }
        ensures same { IsSamePass pass.old pass.new source }
        ensures told { HasTold pass.new }
        ensures ok { IfOk result (λ reply. HasMade pass.old pass.new source (record { caller = pass.old.account.number; edit = edit.now; reply = reply })) }
        ensures err { IfErr result (λ error. HasMadeNone pass.old pass.new source × IsRefused pass.old source error) }
    {
        let number = pass.station.number;
        let edit = edit.copy()?;
        edit_in_turn(
            rt,
            &self.flags,
            &mut pass.station.seat,
            number,
            source,
            &edit,
        )
    }

    /// Leaves each of the pass's sources that it hasn't left, in rising order. It takes no memory.
    pub fn leave<R: Wait>(&self, rt: &R, pass: WriterPass) -> Left
        requires hub { IsOf self.now.machine pass }
        ensures left { HasLeft pass result }
        ensures told { HasTold result }
    {
        let WriterPass {
            mut station,
            sources,
        } = pass;
        leave_all(rt, &self.flags, &mut station.seat, station.number, sources);
        Left { station }
    }
}
