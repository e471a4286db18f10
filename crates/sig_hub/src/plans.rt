ghost use Rattle.std.specs.Prelude.{◌↔◌, ◌^◌, ◌<◌, ◌≤◌, All, IsTrue};
ghost use Rattle.sig_flag.specs.Layouts.{IsLeafOf};
ghost use Rattle.sig_hist.specs.Changes.{IsInOrder, size_of};
ghost use Rattle.sig_hist.specs.Sources.{AreDistinct, IsPlan, room_of, writers_of};
ghost use Rattle.sig_hub.specs.Plans.{IsSound, HasFairCounts, IsSourceBy};

use crate::starting::may_write;
use sig_diff::{Content, Items};
use sig_flag::{LeafPlan, LeafPlans};
use sig_hist::{Allowance, Plans, SourcePlan};

/// Counts stay below this number.
const MOST: usize = 1 << 32;

/// The poller of each task.
pub type PollerOf = Items<u32>;

/// What a hub is made for.
#[derive(Debug, Drop)]
pub struct HubPlan {
    pub sources: Plans,
    pub leaves: LeafPlans,
    pub tasks: PollerOf,
    pub pollers: u32,
    /// How many writers it has. They are the callers below this number.
    pub writers: u32,
}

impl HubPlan {
    /// Whether a hub can be made by it.
    pub fn is_sound(&self) -> bool
        ensures { IsTrue result ↔ IsSound self.now }
    {
        self.has_fair_counts()
            && are_sources(self.sources.as_slice(), self.writers)
            && are_leaves(self.leaves.as_slice(), self.sources.len(), self.tasks.len())
            && are_tasks(self.tasks.as_slice(), self.pollers)
    }

    fn has_fair_counts(&self) -> bool
        ensures { IsTrue result ↔ HasFairCounts self.now }
    {
        let passes = u64::from(self.writers) + u64::from(self.pollers);
        !self.sources.is_empty()
            && self.pollers > 0
            && self.sources.len() < MOST
            && self.tasks.len() < MOST
            && passes < MOST as u64
    }
}

/// Whether each is a plan of a source by so many writers.
fn are_sources(plans: &[SourcePlan], writers: u32) -> bool
    ensures { IsTrue result ↔ All (IsSourceBy writers) plans.now }
{
    plans.iter().all(|plan| is_source(plan, writers))
}

fn is_source(plan: &SourcePlan, writers: u32) -> bool
    ensures { IsTrue result ↔ IsSourceBy writers plan.now }
{
    is_plan(plan) && are_by(plan.allow.as_slice(), writers)
}

fn is_plan(plan: &SourcePlan) -> bool
    ensures { IsTrue result ↔ IsPlan plan.now }
{
    let allow = plan.allow.as_slice();
    fits(&plan.start, plan.cap) && are_distinct(allow) && has_room(allow)
}

/// Whether a content is within a cap. The keys of a map rise by its type.
fn fits(content: &Content, cap: u32) -> bool
    ensures { IsTrue result ↔ (IsInOrder content.now × (size_of content.now ≤ cap)) }
{
    let size = match content {
        Content::Cell(_) => 1,
        Content::Vector(items) => items.len(),
        Content::Map(entries) => entries.as_slice().len(),
    };
    size <= cap as usize
}

fn are_distinct(allow: &[Allowance]) -> bool
    ensures { IsTrue result ↔ AreDistinct (writers_of allow.now) }
{
    'allow: for (place, allowance) in allow.iter().enumerate() {
        if may_write(&allow[place + 1..], allowance.writer) {
            return false;
        }
    }
    true
}

/// Whether the entries that all may make can be counted.
fn has_room(allow: &[Allowance]) -> bool
    ensures { IsTrue result ↔ (room_of allow.now < 2 ^ 32) }
{
    let mut room = 0;
    'allow: for allowance in allow {
        room += allowance.edits as usize + 1;
        if room >= MOST {
            return false;
        }
    }
    true
}

fn are_by(allow: &[Allowance], writers: u32) -> bool
    ensures { IsTrue result ↔ All (λ allowance. allowance.writer < writers) allow.now }
{
    allow.iter().all(|allowance| allowance.writer < writers)
}

fn are_leaves(leaves: &[LeafPlan], sources: usize, tasks: usize) -> bool
    ensures { IsTrue result ↔ All (IsLeafOf sources tasks) leaves.now }
{
    leaves.iter().all(|leaf| (leaf.source as usize) < sources && (leaf.task as usize) < tasks)
}

fn are_tasks(tasks: &[u32], pollers: u32) -> bool
    ensures { IsTrue result ↔ All (λ poller. poller < pollers) tasks.now }
{
    tasks.iter().all(|poller| *poller < pollers)
}
