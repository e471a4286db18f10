ghost use Rattle.std.specs.Prelude.{◌≡◌, ℕ, ◌<◌, ◌≤◌, true, length, map, get_or, slice_set, vec_capacity, All, IfOk};
ghost use Rattle.sig_hist.specs.Bells.{ArePlaces, changed_at, wait_begun, wait_ended};
ghost use Rattle.sig_hist.specs.Plain.{leaf_armed, leaf_checked, leaf_of, leaf_settled, no_leaf};
ghost use Rattle.sig_hist.specs.Ports.{is_open};
ghost use Rattle.sig_hist.specs.Sources.{is_among};

use crate::ports::{Condition, Version};
use sig_diff::NoMemory;
use std::alloc::Global;
use std::marker::Model;
use std::mem;

/// A leaf of the port of one thread.
#[derive(Debug, Clone, Copy, PartialEq, Eq)]
pub struct PlainLeaf {
    pub source: usize,
    pub condition: Condition,
    /// How often its bell was set, as far as 64 bits reach.
    pub arms: u64,
}

/// How the leaves of one task stand to the bells of their sources. A look goes over the leaves whose bells were set
/// since the last rest, and a rest over those and the ones that waited before it: all others are idle.
#[derive(Drop)]
pub struct Bells {
    leaves: Vec<PlainLeaf>,
    armed: Vec<usize>,
    waiting: Vec<usize>,
}

impl Model for Bells {
    ghost use Rattle.std.specs.Prelude.{List, vec_capacity};
    ghost use Rattle.sig_hist.specs.Bells.{AreListed};
    ghost use Rattle.sig_hist.specs.declared.bells.PlainLeaf.{PlainLeaf};

    ghost Value = { List PlainLeaf };

    ghost view = { λ bells. bells.leaves.items };

    ghost invariant = { λ bells. AreListed bells.leaves.items bells.armed.items bells.waiting.items (vec_capacity bells.armed) (vec_capacity bells.waiting) };
}

impl Bells {
    /// The leaves with the sources of these numbers, all idle. It reserves the room for what is listed of them.
    pub fn new(alloc: Global, sources: &[usize]) -> Result<Bells, NoMemory>
        ensures { IfOk result (λ bells. bells ≡ map leaf_of sources.now) }
    {
        Ok(Bells {
            leaves: leaves_of(alloc, sources)?,
            armed: Vec::with_capacity(alloc, sources.len())?,
            waiting: Vec::with_capacity(alloc, sources.len())?,
        })
    }

    pub fn leaf(&self, leaf: usize) -> PlainLeaf
        requires { leaf < length self.now }
        ensures { result ≡ get_or self.now leaf no_leaf }
    {
        self.leaves[leaf]
    }

    /// A look at a source has shown a version.
    pub fn check(&mut self, source: usize, version: Version)
        ensures { self.new ≡ map (leaf_checked source version) self.old }
    {
        check(
            self.leaves.as_mut_slice(),
            self.armed.as_slice(),
            source,
            version,
        );
    }

    /// A leaf's bell is set.
    #[tactic(auto, using(crate::proofs::Listing::listed_armed, crate::proofs::Listing::listed_armed_again))]
    pub fn arm(&mut self, leaf: usize)
        requires { leaf < length self.old }
        ensures { self.new ≡ slice_set self.old leaf (leaf_armed (get_or self.old leaf no_leaf)) }
    {
        let old = self.leaves[leaf];
        if !is_open(old.condition) {
            list(&mut self.armed, leaf, self.leaves.len());
        }
        self.leaves[leaf] = armed(old);
    }

    /// The task comes to rest: its checked leaves wait, and its others are idle.
    pub fn settle(&mut self)
        ensures { self.new ≡ map leaf_settled self.old }
    {
        end_waits(self.leaves.as_mut_slice(), self.waiting.as_slice());
        begin_waits(self.leaves.as_mut_slice(), self.armed.as_slice());
        mem::swap(&mut self.armed, &mut self.waiting);
        self.armed.clear();
    }
}

/// The leaves with the sources of these numbers, before a poll.
fn leaves_of(alloc: Global, sources: &[usize]) -> Result<Vec<PlainLeaf>, NoMemory>
    ensures { IfOk result (λ all. all.items ≡ map leaf_of sources.now) }
{
    let mut all = Vec::with_capacity(alloc, sources.len())?;
    'sources: for source in sources {
        all.push(PlainLeaf {
            source: *source,
            condition: Condition::Idle,
            arms: 0,
        })?;
    }
    Ok(all)
}

/// Lists a leaf, one of so many. A list that is full becomes that of all leaves, so it takes no memory.
#[tactic(auto, using(crate::proofs::Listing::among_pushed, crate::proofs::Listing::among_more, crate::proofs::Listing::places_pushed))]
fn list(places: &mut Vec<usize>, leaf: usize, count: usize)
    requires leaf { leaf < count }
    requires places { ArePlaces count places.old.items (vec_capacity places.old) }
    ensures listed { is_among leaf places.new.items ≡ true }
    ensures others { (other : ℕ) → is_among other places.old.items ≡ true → is_among other places.new.items ≡ true }
    ensures places { ArePlaces count places.new.items (vec_capacity places.new) }
{
    if places.len() < count {
        places.push_reserved(leaf);
    } else {
        list_all(places, count);
    }
}

/// Lists all of so many leaves.
#[tactic(auto, using(crate::proofs::Listing::all_listed_start, crate::proofs::Listing::all_listed_more))]
fn list_all(places: &mut Vec<usize>, count: usize)
    requires { count ≤ vec_capacity places.old }
    ensures all { (other : ℕ) → other < count → is_among other places.new.items ≡ true }
    ensures places { ArePlaces count places.new.items (vec_capacity places.new) }
{
    places.clear();
    'all: for leaf in 0..count {
        places.push_reserved(leaf);
    }
}

/// The leaves at these places are those of a source that showed a version.
#[tactic(auto, using(crate::proofs::Listing::changing_more, crate::proofs::Listing::changing_end))]
fn check(leaves: &mut [PlainLeaf], places: &[usize], source: usize, version: Version)
    requires { All (λ place. place < length leaves.old) places.now }
    ensures { leaves.new ≡ changed_at (leaf_checked source version) places.now leaves.old }
{
    'places: for place in places {
        leaves[*place] = checked(leaves[*place], source, version);
    }
}

/// The waits of the leaves at these places end.
#[tactic(auto, using(crate::proofs::Listing::changing_more, crate::proofs::Listing::changing_end))]
fn end_waits(leaves: &mut [PlainLeaf], places: &[usize])
    requires { All (λ place. place < length leaves.old) places.now }
    ensures { leaves.new ≡ changed_at wait_ended places.now leaves.old }
{
    'places: for place in places {
        leaves[*place] = wait_ended(leaves[*place]);
    }
}

/// The leaves at these places wait where they were checked, and else are idle.
#[tactic(auto, using(crate::proofs::Listing::changing_more, crate::proofs::Listing::changing_end))]
fn begin_waits(leaves: &mut [PlainLeaf], places: &[usize])
    requires { All (λ place. place < length leaves.old) places.now }
    ensures { leaves.new ≡ changed_at wait_begun places.now leaves.old }
{
    'places: for place in places {
        leaves[*place] = wait_begun(leaves[*place]);
    }
}

fn is_open(condition: Condition) -> bool
    ensures { result ≡ is_open condition }
{
    matches!(condition, Condition::Armed | Condition::Checked(_))
}

fn checked(leaf: PlainLeaf, source: usize, version: Version) -> PlainLeaf
    ensures { result ≡ leaf_checked source version leaf }
{
    if leaf.source != source {
        return leaf;
    }
    let condition = match leaf.condition {
        Condition::Armed | Condition::Checked(_) => Condition::Checked(version),
        old => old,
    };
    PlainLeaf { condition, ..leaf }
}

fn armed(leaf: PlainLeaf) -> PlainLeaf
    ensures { result ≡ leaf_armed leaf }
{
    PlainLeaf {
        condition: Condition::Armed,
        arms: leaf.arms.saturating_add(1),
        ..leaf
    }
}

fn wait_ended(leaf: PlainLeaf) -> PlainLeaf
    ensures { result ≡ wait_ended leaf }
{
    let condition = match leaf.condition {
        Condition::Waiting(_) => Condition::Idle,
        old => old,
    };
    PlainLeaf { condition, ..leaf }
}

fn wait_begun(leaf: PlainLeaf) -> PlainLeaf
    ensures { result ≡ wait_begun leaf }
{
    let condition = match leaf.condition {
        Condition::Checked(version) => Condition::Waiting(version),
        Condition::Armed => Condition::Idle,
        old => old,
    };
    PlainLeaf { condition, ..leaf }
}
