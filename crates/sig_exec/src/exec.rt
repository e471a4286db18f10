ghost use Rattle.std.specs.Prelude.{◌≡◌, ◌+◌, ◌^◌, ◌<◌, ◌≤◌, [], false, length, map, count_by, slice_index_or, vec_capacity, All, IfOk};
ghost use Rattle.std.specs.List.{list_any};
ghost use Rattle.sig_exec.specs.Jobs.{AreJobs, HasWorkedAll, HasRun, IsTurn, is_live, is_lost, rows_of, works_of};
ghost use Rattle.sig_hub.specs.Polls.{IsSamePoller, port_of};

use crate::gate::Gate;
use crate::jobs::{JobRows, Jobs, Turned, Work};
use crate::turns::turn_one;
use crossbeam_utils::Backoff;
use sig_diff::{Items, NoMemory};
use sig_hub::{Hub, PollPass};
use sig_view::{Row, Rows};
use std::alloc::Global;
use std::marker::Model;
use std::sync::Wait;

/// Views that are polled on one poller's pass as their tasks are told, with the rows that they give.
///
/// Of one view of the empty vector the first `turn` gives a row and answers 1 row, 1 live job, not short; the next one, where nothing was edited,
/// 0 rows. After a push of 7 a turn gives a row that pushes 7, and after the leave of the only writer `run` gives the last two and answers
/// false: no job was lost.
#[derive(Drop)]
pub struct Exec {
    alloc: Global,
    works: Vec<Work>,
    /// Room for the rows of each job.
    room: Vec<Rows>,
}

impl Model for Exec {
    ghost use Rattle.std.specs.Prelude.{◌≡◌, ◌<◌, ◌^◌, List, length, vec_capacity};
    ghost use Rattle.std.specs.Coded.{codes};
    ghost use Rattle.sig_flag.specs.Machines.{IsRoom};
    ghost use Rattle.sig_exec.specs.contracts.jobs.Work as contract;
    ghost use Rattle.sig_exec.specs.declared.jobs.Work.{Work};

    ghost Value = { List Work };

    ghost coded = { Prim.hlevel (codes, contract.the_row.coded) };

    ghost view = { λ exec. exec.works.items };

    ghost invariant = { λ exec. (length exec.works.items < 2 ^ 32) × IsRoom exec.room.items (vec_capacity exec.room) (length exec.works.items) };
}

impl Exec {
    /// An executor of these jobs, none of which was polled yet. The room for the list of their rows is made here.
    pub fn new(alloc: Global, jobs: Jobs) -> Result<Exec, NoMemory>
        requires few { length jobs < 2 ^ 32 }
        ensures { IfOk result (λ exec. exec ≡ works_of jobs) }
    {
        let room = Vec::with_capacity(alloc, jobs.len())?;
        let works = works_of(alloc, jobs)?;
        Ok(Exec { alloc, works, room })
    }

    /// Polls each live job once whose task has a token or is told by now, and keeps the rows that come. Where a held word is in a poll's way
    /// it pauses, and polls that job again.
    pub fn turn<R: Wait, G: Gate>(
        &mut self,
        rt: &R,
        hub: &Hub,
        pass: &mut PollPass,
        gate: &G,
    ) -> Turned
        requires { AreJobs hub.now pass.old self.old }
        ensures same { IsSamePoller pass.old pass.new }
        ensures jobs { AreJobs hub.now pass.new self.new }
        ensures turn { IsTurn (port_of pass.old) (port_of pass.new) self.old self.new result }
    {
        let rows = turn_all(rt, self.alloc, hub, pass, gate, self.works.as_mut_slice());
        turned(rows, self.works.as_slice())
    }

    /// Takes turns until no job is live, with a pause after each that gave no row. Whether a job was lost to want of memory.
    pub fn run<R: Wait, G: Gate>(
        &mut self,
        rt: &R,
        hub: &Hub,
        pass: &mut PollPass,
        gate: &G,
    ) -> bool
        requires { AreJobs hub.now pass.old self.old }
        ensures same { IsSamePoller pass.old pass.new }
        ensures jobs { AreJobs hub.now pass.new self.new }
        ensures run { HasRun self.old self.new }
        ensures over { All (λ work. is_live work ≡ false) self.new }
        ensures short { result ≡ list_any is_lost self.new }
    {
        let backoff = Backoff::new();
        'turns: for _ in rt.forever() {
            let turned = self.turn(rt, hub, pass, gate);
            if turned.live == 0 {
                return turned.short;
            }
            if turned.rows == 0 {
                backoff.snooze();
            } else {
                backoff.reset();
            }
        }
        unreachable!()
    }

    /// The rows that a job has given so far, counted from 0 in the order of the jobs. Of a job that there isn't none.
    pub fn rows_so_far(&self, job: usize) -> &[Row]
        ensures { result.now ≡ slice_index_or (map rows_of self.now) job [] }
    {
        match self.works.get(job) {
            Some(work) => work.view.rows.as_slice(),
            None => &[],
        }
    }

    /// The rows of each job. It takes no memory.
    pub fn rows(self) -> JobRows
        ensures { result ≡ map rows_of self }
    {
        let Exec { works, room, .. } = self;
        Items::from_vec(with_rows(room, works))
    }
}

/// Each job before its first poll.
fn works_of(alloc: Global, jobs: Jobs) -> Result<Vec<Work>, NoMemory>
    ensures { IfOk result (λ works. works.items ≡ works_of jobs) }
{
    let mut works = Vec::with_capacity(alloc, jobs.len())?;
    'jobs: for (task, job) in jobs.into_vec() {
        works.push(Work::new(alloc, task, job))?;
    }
    Ok(works)
}

/// A turn of each job, and how many rows they gave.
fn turn_all<R: Wait, G: Gate>(
    rt: &R,
    alloc: Global,
    hub: &Hub,
    pass: &mut PollPass,
    gate: &G,
    works: &mut [Work],
) -> u32
    requires jobs { AreJobs hub.now pass.old works.old }
    requires few { length works.old < 2 ^ 32 }
    ensures same { IsSamePoller pass.old pass.new }
    ensures jobs { AreJobs hub.now pass.new works.new }
    ensures worked { HasWorkedAll (port_of pass.old) (port_of pass.new) works.old works.new result }
{
    let mut rows = 0;
    'works: for work in works {
        rows += turn_one(rt, alloc, hub, pass, gate, work);
    }
    rows
}

/// What a turn did that gave so many rows.
fn turned(rows: u32, works: &[Work]) -> Turned
    requires { length works.now < 2 ^ 32 }
    ensures rows { result.rows ≡ rows }
    ensures live { result.live ≡ count_by is_live works.now }
    ensures short { result.short ≡ list_any is_lost works.now }
{
    Turned {
        rows,
        live: works.iter().filter(|work| work.is_live()).count() as u32,
        short: works.iter().any(Work::is_lost),
    }
}

/// The rows of jobs, in the room that was made for them.
fn with_rows(mut room: Vec<Rows>, works: Vec<Work>) -> Vec<Rows>
    requires empty { room.items ≡ [] }
    requires room { length works.items ≤ vec_capacity room }
    ensures { result.items ≡ map rows_of works.items }
{
    'works: for work in works {
        let Work { view, .. } = work;
        room.push_reserved(view.into_rows());
    }
    room
}
