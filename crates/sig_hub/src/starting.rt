//! How a hub is made: the states of its sources, and a pass for each seat.
ghost use Rattle.std.specs.Prelude.{◌≡◌, ◌==◌, [], ◌+◌, ◌^◌, ◌<◌, ◌≤◌, length, map, All, IfOk, OnOk};
ghost use Rattle.std.specs.List.{list_any};
ghost use Rattle.std.specs.Vec.Iter.{into_iter_items};
ghost use Rattle.sig_flag.specs.Layouts.{IsLeafOf};
ghost use Rattle.sig_hist.specs.Plain.{source_of};
ghost use Rattle.sig_hist.specs.Sources.{IsPlan};
ghost use Rattle.sig_hub.specs.Hubs.{AreNew, new_pass};
ghost use Rattle.sig_hub.specs.Starting.{has_closed, AreWritten, AreDrafts, IsNewSeat, AreNewSeats, IsSeated};

use crate::hub::{Hub, Passes};
use crate::passes::{PollPass, PollPasses, WriterPass, WriterPasses};
use crate::stations::Station;
use crate::turns::{HubFlags, HubSeat};
use sig_diff::{Items, NoMemory};
use sig_flag::{FlagSeats, FlagShape, Flags, LeafPlans, SeatNumbers, States};
use sig_hist::{Allowance, Kept, Plans, SourcePlan, SourceState};
use std::alloc::Global;
use std::snapshot::Snapshot;
use std::vec::IntoIter;

/// The seats that have no pass yet.
pub type SeatIter = IntoIter<HubSeat>;

/// What a writer's pass is made of beside its seat.
#[derive(Debug, Drop)]
pub struct Draft {
    pub number: u32,
    pub sources: Vec<usize>,
}

/// The sources at their start.
fn states_of(alloc: Global, plans: Plans) -> Result<States<SourceState>, NoMemory>
    requires { All IsPlan plans }
    ensures { IfOk result (λ states. states ≡ map source_of plans) }
{
    let mut states = Vec::with_capacity(alloc, plans.len())?;
    'plans: for plan in plans.into_vec() {
        states.push(SourceState::new(alloc, plan)?)?;
    }
    Ok(Items::from_vec(states))
}

/// Whether each source is closed.
fn closed_of(alloc: Global, states: &[SourceState]) -> Result<Vec<bool>, NoMemory>
    ensures { IfOk result (λ closed. closed.items ≡ map has_closed states.now) }
{
    let mut closed = Vec::with_capacity(alloc, states.len())?;
    'states: for state in states {
        closed.push(state.is_closed())?;
    }
    Ok(closed)
}

fn shape_of(
    alloc: Global,
    states: &[SourceState],
    leaves: LeafPlans,
    tasks: SeatNumbers,
    seats: u32,
) -> Result<FlagShape, NoMemory>
    requires { length states.now < 2 ^ 32 }
    ensures { IfOk result (λ shape. shape ≡ record { sources = length states.now; closed = map has_closed states.now; leaves = leaves; tasks = tasks; seats = seats }) }
{
    let closed = closed_of(alloc, states)?;
    Ok(FlagShape {
        sources: states.len() as u32,
        closed: Items::from_vec(closed),
        leaves,
        tasks,
        seats,
    })
}

/// The seat that polls each task: the seats of pollers come behind those of the writers.
pub fn pollers_of(alloc: Global, tasks: &[u32], writers: u32) -> Result<SeatNumbers, NoMemory>
    requires { All (λ poller. writers + poller < 2 ^ 32) tasks.now }
    ensures { IfOk result (λ seats. seats ≡ map (λ poller. writers + poller) tasks.now) }
{
    let mut seats = Vec::with_capacity(alloc, tasks.len())?;
    'tasks: for poller in tasks {
        seats.push(writers + *poller)?;
    }
    Ok(Items::from_vec(seats))
}

/// The machine of some sources, leaves and tasks, and all its seats.
pub fn flags_of(
    alloc: Global,
    plans: Plans,
    leaves: LeafPlans,
    tasks: SeatNumbers,
    seats: u32,
) -> Result<(HubFlags, FlagSeats<SourceState>), NoMemory>
    requires plans { All IsPlan plans }
    requires some_source { 0 < length plans }
    requires few { length plans < 2 ^ 32 }
    requires some_seat { 0 < seats }
    requires leaves { All (IsLeafOf (length plans) (length tasks)) leaves }
    requires tasks { All (λ poller. poller < seats) tasks }
    ensures { IfOk result (λ made. IsSeated (record { plans = plans; leaves = leaves; pollers = tasks; seats = seats }) made.0 made.1) }
{
    let states = states_of(alloc, plans)?;
    let shape = shape_of(alloc, states.as_slice(), leaves, tasks, seats)?;
    Flags::new(alloc, shape, states)
}

/// The drafts of so many writers' passes.
pub fn drafts_of(alloc: Global, plans: &[SourcePlan], writers: u32) -> Result<Vec<Draft>, NoMemory>
    ensures drafts { IfOk result (λ drafts. AreDrafts plans.now 0 drafts.items) }
    ensures count { IfOk result (λ drafts. length drafts.items ≡ writers) }
{
    let mut drafts = Vec::with_capacity(alloc, writers as usize)?;
    'writers: for number in 0..writers {
        let sources = sources_by(alloc, plans, number)?;
        drafts.push(Draft { number, sources })?;
    }
    Ok(drafts)
}

/// The sources that a writer writes, the greatest first.
fn sources_by(alloc: Global, plans: &[SourcePlan], number: u32) -> Result<Vec<usize>, NoMemory>
    ensures { IfOk result (λ sources. AreWritten plans.now number 0 sources.items) }
{
    let mut sources = Vec::new(alloc);
    'plans: for source in (0..plans.len()).rev() {
        if may_write(plans[source].allow.as_slice(), number) {
            sources.push(source)?;
        }
    }
    Ok(sources)
}

/// Whether a writer is among those of a plan.
pub fn may_write(allow: &[Allowance], number: u32) -> bool
    ensures { result ≡ list_any (λ allowance. allowance.writer == number) allow.now }
{
    allow.iter().any(|allowance| allowance.writer == number)
}

impl Hub {
    /// The passes of all seats.
    pub(crate) fn passes(
        &self,
        seats: FlagSeats<SourceState>,
        drafts: Vec<Draft>,
    ) -> Result<Passes, NoMemory>
        requires plans { All IsPlan self.now.machine.layout.plans }
        requires drafts { AreDrafts self.now.machine.layout.plans 0 drafts.items }
        requires writers { length drafts.items ≡ self.now.writers }
        requires seats { AreNewSeats self.now.machine 0 seats }
        requires count { length seats ≡ self.now.writers + self.now.pollers }
        requires few { self.now.writers + self.now.pollers < 2 ^ 32 }
        ensures writers { IfOk result (λ passes. AreNew self.now 0 self.now.writers passes.writers) }
        ensures pollers { IfOk result (λ passes. AreNew self.now self.now.writers self.now.pollers passes.pollers) }
    {
        let mut seats = seats.into_vec().into_iter();
        let writers = self.writer_passes(&mut seats, drafts)?;
        let pollers = self.poll_passes(seats)?;
        Ok(Passes { writers, pollers })
    }

    /// The writers' passes, with the first of the seats.
    fn writer_passes(
        &self,
        seats: &mut SeatIter,
        drafts: Vec<Draft>,
    ) -> Result<WriterPasses, NoMemory>
        requires plans { All IsPlan self.now.machine.layout.plans }
        requires drafts { AreDrafts self.now.machine.layout.plans 0 drafts.items }
        requires seats { AreNewSeats self.now.machine 0 (into_iter_items seats.old) }
        requires enough { length drafts.items ≤ length (into_iter_items seats.old) }
        ensures passes { IfOk result (AreNew self.now 0 (length drafts.items)) }
        ensures seats { OnOk result (AreNewSeats self.now.machine (length drafts.items) (into_iter_items seats.new)) }
        ensures count { OnOk result (length drafts.items + length (into_iter_items seats.new) ≡ length (into_iter_items seats.old)) }
    {
        let mut passes = Vec::with_capacity(self.alloc, drafts.len())?;
        'drafts: for draft in drafts {
            let Draft { number, sources } = draft;
            match seats.next() {
                None => unreachable!(),
                Some(seat) => passes.push(WriterPass {
                    station: self.station(seat, number),
                    sources,
                })?,
            }
        }
        Ok(Items::from_vec(passes))
    }

    /// A seat that has seen and made nothing yet.
    fn station(&self, seat: HubSeat, number: u32) -> Station
        requires seat { IsNewSeat self.now.machine number seat }
        requires plans { All IsPlan self.now.machine.layout.plans }
        ensures { result ≡ new_pass self.now number }
    {
        Station {
            of: Snapshot::of(&self.flags),
            seat,
            number,
        }
    }

    /// The pollers' passes, with the seats behind those of the writers.
    fn poll_passes(&self, seats: SeatIter) -> Result<PollPasses, NoMemory>
        requires plans { All IsPlan self.now.machine.layout.plans }
        requires seats { AreNewSeats self.now.machine self.now.writers (into_iter_items seats) }
        requires few { self.now.writers + length (into_iter_items seats) < 2 ^ 32 }
        ensures { IfOk result (AreNew self.now self.now.writers (length (into_iter_items seats))) }
    {
        let mut passes = Vec::with_capacity(self.alloc, seats.len())?;
        'seats: for seat in seats {
            let number = self.writers + passes.len() as u32;
            passes.push(PollPass {
                station: self.station(seat, number),
            })?;
        }
        Ok(Items::from_vec(passes))
    }
}
