ghost use Rattle.std.specs.Prelude.{◌≡◌, ◌+◌, ◌≤◌, true, length, map, IfSome, IfOk, IfErr, OnOk};
ghost use Rattle.sig_hist.specs.Entering.{entering_from};
ghost use Rattle.sig_hist.specs.Plain.{leaf_armed, leaf_settled, version_of};
ghost use Rattle.sig_hist.specs.Ports.{IsFetch, IsFetchRefusal, IsSoundPort};
ghost use Rattle.sig_hist.specs.Sources.{IsIn, IsPlan, IsSource, is_among, room_of, writers_of};
ghost use Rattle.trials_parts.specs.Moving.{HasCaughtUp, known, leaf_checked};

use sig_diff::{NoMemory, VecDiff};
use sig_hist::{
    Condition, Edit, EditError, FetchError, Fetched, Free, Kept, Met, PlainLeaf, Port, Rested,
    SourcePlan, SourceState, Version,
};
use std::alloc::Global;
use std::marker::Model;

/// A number that a writer pushes before a look. Looks are counted from 1.
#[derive(Clone, Copy)]
pub struct Push {
    pub look: u32,
    pub value: i64,
}

/// Why a fetch fails. Fetches are counted from 1.
#[derive(Clone, Copy)]
pub struct Refusal {
    pub fetch: u32,
    pub error: FetchError,
}

/// A port over one source, to which a writer pushes between its calls, at most once before each look, and whose
/// fetches of stated numbers fail. What was pushed is seen by the next fetch that succeeds.
#[derive(Drop)]
pub struct Moving {
    /// The source as far as it was seen.
    source: SourceState,
    /// How many entries it had at the last look.
    count: u32,
    leaves: Vec<PlainLeaf>,
    met: Vec<Met>,
    writer: u32,
    pushes: Vec<Push>,
    looks: u32,
    refusals: Vec<Refusal>,
    fetches: u32,
}

impl Model for Moving {
    ghost use Rattle.std.specs.Prelude.{length};
    ghost use Rattle.trials_parts.specs.Moving.{OneSource, IsOneSource};

    ghost Value = { OneSource };

    ghost view = { λ p. record { source = p.source; count = p.count; leaves = p.leaves.items; met = p.met.items } };

    ghost invariant = { λ p. IsOneSource (record { source = p.source; count = p.count; leaves = p.leaves.items; met = p.met.items }) p.writer (length p.pushes.items) };
}

impl Moving {
    /// The source at its start, with so many leaves on it.
    #[tactic(auto, using(crate::proofs::Seeing::started))]
    pub fn new(
        alloc: Global,
        plan: SourcePlan,
        writer: u32,
        leaves: usize,
        pushes: &[Push],
        refusals: &[Refusal],
    ) -> Result<Moving, NoMemory>
        requires plan { IsPlan plan }
        requires writer { is_among writer (writers_of plan.allow) ≡ true }
        requires room { length pushes.now ≤ room_of plan.allow }
        ensures plan { IfOk result (λ port. port.source.plan ≡ plan) }
        ensures leaves { IfOk result (λ port. length port.leaves ≡ leaves) }
        ensures sound { IfOk result (λ port. IsSoundPort (known port)) }
    {
        let leaf = PlainLeaf {
            source: 0,
            condition: Condition::Idle,
            arms: 0,
        };
        let port = Moving {
            source: SourceState::new(alloc, plan)?,
            count: 0,
            leaves: vec![in alloc; leaf; leaves]?,
            met: Vec::new(alloc),
            writer,
            pushes: Vec::from_slice(alloc, pushes)?,
            looks: 0,
            refusals: Vec::from_slice(alloc, refusals)?,
            fetches: 0,
        };
        port.tells_what_is_sound();
        Ok(port)
    }

    /// Says of its invariant what callers need.
    fn tells_what_is_sound(&self)
        ensures { IsSoundPort (known self.now) }
    {
        let _looks = self.looks;
    }

    /// What the source shows at the next look.
    fn glance(&mut self) -> Version
        ensures more { self.old.count ≤ result.count }
        ensures closed { result.closed ≡ (version_of self.old.source).closed }
        ensures counted { self.new ≡ record self.old { count = result.count } }
    {
        self.looks = self.looks.saturating_add(1);
        if is_due(self.pushes.as_slice(), self.count, self.looks) {
            self.count += 1;
        }
        Version {
            count: self.count,
            closed: self.source.is_closed(),
        }
    }

    /// A fetch that fails.
    fn refuse(&mut self, error: FetchError) -> FetchError
        ensures refused { IsFetchRefusal (known self.old) (known self.new) 0 result }
        ensures plan { self.new.source.plan ≡ self.old.source.plan }
    {
        if let FetchError::Again { word } = error {
            if self.met.push(Met { source: 0, word }).is_err() {
                return FetchError::NoMemory;
            }
        }
        error
    }

    /// A fetch that doesn't fail by plan.
    #[tactic(auto, using(crate::proofs::Seeing::fetch_made, crate::proofs::Seeing::fetch_in_vain))]
    fn fetch_on(&mut self, leaf: usize, from: Option<u32>) -> Result<Fetched, FetchError>
        requires { IfSome from (λ position. position ≤ self.old.count) }
        ensures ok { IfOk result (IsFetch (known self.old) (known self.new) leaf from) }
        ensures err { IfErr result (IsFetchRefusal (known self.old) (known self.new) leaf) }
        ensures plan { self.new.source.plan ≡ self.old.source.plan }
    {
        match catch_up(
            &mut self.source,
            self.writer,
            self.pushes.as_slice(),
            self.count,
        ) {
            Ok(()) => fetched(&self.source, from).map_err(|_| FetchError::NoMemory),
            Err(_) => Err(FetchError::NoMemory),
        }
    }
}

impl Port for Moving {
    ghost use Rattle.std.specs.Prelude.{◌≡◌};
    ghost use Rattle.std.proofs.Common.{◌∙◌, refl};
    ghost use Rattle.trials_parts.specs.Moving.{known};

    type Told = Free;

    ghost state = { known };

    ghost is_same = { λ port next. next.source.plan ≡ port.source.plan };

    ghost is_told = { λ port told task. Unit {0} };

    #[tactic(auto, using(crate::proofs::Seeing::known_looked))]
    fn look(&mut self, _leaf: usize) -> Version {
        let version = self.glance();
        check(self.leaves.as_mut_slice(), version);
        self.tells_what_is_sound();
        version
    }

    fn fetch(&mut self, leaf: usize, from: Option<u32>) -> Result<Fetched, FetchError> {
        self.fetches = self.fetches.saturating_add(1);
        let fetched = match error_at(self.refusals.as_slice(), self.fetches) {
            Some(error) => Err(self.refuse(error)),
            None => self.fetch_on(leaf, from),
        };
        self.tells_what_is_sound();
        fetched
    }

    #[tactic(auto, using(crate::proofs::Seeing::known_armed))]
    fn arm(&mut self, leaf: usize) {
        self.leaves[leaf] = armed(self.leaves[leaf]);
        self.tells_what_is_sound();
    }

    fn rest(&mut self, leaf: usize, at: u32, told: Free) -> Rested<Free> {
        let version = self.look(leaf);
        if version.count != at || version.closed {
            return Rested::News { version, told };
        }
        settle(self.leaves.as_mut_slice());
        self.tells_what_is_sound();
        Rested::Waiting
    }

    ghost same_now = { λ port. refl };

    ghost same_later = { λ port next last first second. second ∙ first };

    ghost told_later = { λ port next told task same is_told. tt };
}

/// Whether the push after so many is made before a look.
fn is_due(pushes: &[Push], made: u32, look: u32) -> bool
    ensures { result ≡ true → made + 1 ≤ length pushes.now }
{
    match pushes.get(made as usize) {
        Some(push) => push.look <= look,
        None => false,
    }
}

/// Why the fetch of a number fails.
fn error_at(refusals: &[Refusal], fetch: u32) -> Option<FetchError> {
    let mut error = None;
    'refusals: for refusal in refusals {
        if refusal.fetch == fetch {
            error = Some(refusal.error);
        }
    }
    error
}

/// Enters the pushes of a writer up to a count of entries.
#[tactic(auto, using(crate::proofs::Seeing::caught_up_start, crate::proofs::Seeing::caught_up_more))]
fn catch_up(
    source: &mut SourceState,
    writer: u32,
    pushes: &[Push],
    count: u32,
) -> Result<(), EditError>
    requires is_source { IsSource source.old }
    requires is_in { IsIn source.old writer }
    requires seen { length source.old.history ≤ count }
    requires pushes { count ≤ length pushes.now }
    ensures caught_up { HasCaughtUp source.old source.new writer count }
    ensures all { OnOk result (length source.new.history ≡ count) }
{
    'pushes: for place in source.count()..count {
        let value = pushes[place as usize].value;
        source.edit(writer, &Edit::Vector(VecDiff::Push { value }))?;
    }
    Ok(())
}

/// What enters from a position to the end of a source's history.
fn fetched(source: &SourceState, from: Option<u32>) -> Result<Fetched, NoMemory>
    requires { IfSome from (λ position. position ≤ length source.now.history) }
    ensures version { IfOk result (λ fetched. fetched.version ≡ version_of source.now) }
    ensures entering { IfOk result (λ fetched. fetched.entering ≡ entering_from source.now from) }
{
    let entering = source.entering(from)?;
    let version = Version {
        count: source.count(),
        closed: source.is_closed(),
    };
    Ok(Fetched { version, entering })
}

/// A look has shown a version.
fn check(leaves: &mut [PlainLeaf], version: Version)
    ensures { leaves.new ≡ map (leaf_checked version) leaves.old }
{
    'leaves: for leaf in leaves {
        *leaf = checked(*leaf, version);
    }
}

/// The task of all leaves comes to rest.
fn settle(leaves: &mut [PlainLeaf])
    ensures { leaves.new ≡ map leaf_settled leaves.old }
{
    'leaves: for leaf in leaves {
        *leaf = settled(*leaf);
    }
}

fn checked(leaf: PlainLeaf, version: Version) -> PlainLeaf
    ensures { result ≡ leaf_checked version leaf }
{
    let condition = match leaf.condition {
        Condition::Armed | Condition::Checked(_) => Condition::Checked(version),
        old => old,
    };
    PlainLeaf { condition, ..leaf }
}

fn armed(leaf: PlainLeaf) -> PlainLeaf
    ensures { result ≡ leaf_armed leaf }
{
    PlainLeaf {
        condition: Condition::Armed,
        arms: leaf.arms.saturating_add(1),
        ..leaf
    }
}

fn settled(leaf: PlainLeaf) -> PlainLeaf
    ensures { result ≡ leaf_settled leaf }
{
    let condition = match leaf.condition {
        Condition::Checked(version) => Condition::Waiting(version),
        _ => Condition::Idle,
    };
    PlainLeaf { condition, ..leaf }
}
