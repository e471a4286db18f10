ghost use Rattle.std.specs.Prelude.{◌≡◌, ◌<◌, ◌≤◌, true, false, length, map, slice_set, All, IfSome, IfOk, IfErr, OnErr, OnOk};
ghost use Rattle.sig_hist.specs.Changes.{reply_to};
ghost use Rattle.sig_hist.specs.Entering.{entering_from};
ghost use Rattle.sig_hist.specs.Histories.{has_left, is_leave};
ghost use Rattle.sig_hist.specs.Sources.{IsPlan, IsIn, IsRefusal, MayEdit, content_of, is_among, writers_of};
ghost use Rattle.sig_hist.specs.Ports.{IsSoundPort};
ghost use Rattle.sig_hist.specs.Plain.{source_of, leaf_of, source_at, leaf_at, version_of, with_entry, after_leave, StaysWhereItWrites, known};

use crate::bells::Bells;
use crate::edits::{Edit, Reply};
use crate::plans::{EditError, Plans};
use crate::ports::{FetchError, Fetched, Port, Rested, Version};
use crate::sources::{Kept, SourceState};
use sig_diff::{LeafList, NoMemory};
use std::alloc::Global;
use std::marker::Model;

/// The token of the port of one thread. Anybody can make one.
#[derive(Debug, Drop)]
pub struct Free;

/// The port of one thread. It has seen all that there is, finds no word held, and counts its leaves as one task.
#[derive(Drop)]
pub struct Plain {
    sources: Vec<SourceState>,
    bells: Bells,
}

impl Model for Plain {
    ghost use Rattle.sig_hist.specs.Plain.{OneThread, IsOneThread};

    ghost Value = { OneThread };

    ghost view = { λ p. record { sources = p.sources.items; leaves = p.bells } };

    ghost invariant = { λ p. IsOneThread (record { sources = p.sources.items; leaves = p.bells }) };
}

impl Plain {
    /// The sources at their start, and the leaves with the sources of these numbers.
    #[tactic(auto, using(crate::proofs::Knowing::started))]
    pub fn new(alloc: Global, plans: Plans, leaves: LeafList) -> Result<Plain, NoMemory>
        requires plans { All IsPlan plans }
        requires leaves { All (λ source. source < length plans) leaves }
        ensures port { IfOk result (λ port. port ≡ record { sources = map source_of plans; leaves = map leaf_of leaves }) }
        ensures sound { IfOk result (λ port. IsSoundPort (known port)) }
    {
        let port = Plain {
            sources: sources_of(alloc, plans)?,
            bells: Bells::new(alloc, leaves.as_slice())?,
        };
        port.tells_what_is_sound();
        Ok(port)
    }

    /// Says of its invariant what callers need.
    #[tactic(auto, using(crate::proofs::Knowing::known_is_sound))]
    fn tells_what_is_sound(&self)
        ensures { IsSoundPort (known self.now) }
    {
        let _sources = self.sources.len();
    }

    /// Makes an edit of a source, whether or not it has an effect, and puts it into the source's history. After a refusal
    /// nothing has changed.
    #[tactic(auto, using(crate::proofs::Knowing::source_changed, crate::proofs::Knowing::known_is_sound))]
    pub fn edit(&mut self, source: usize, caller: u32, edit: &Edit) -> Result<Reply, EditError>
        requires source { source < length self.old.sources }
        requires is_in { IsIn (source_at self.old source) caller }
        requires no_leave { is_leave edit.now ≡ false }
        ensures reply { IfOk result (λ reply. reply ≡ reply_to (content_of (source_at self.old source)) (source_at self.old source).plan.cap edit.now) }
        ensures entered { IfOk result (λ reply. self.new ≡ with_entry self.old source (record { caller = caller; edit = edit.now; reply = reply })) }
        ensures may { OnOk result (MayEdit (source_at self.old source) caller) }
        ensures refused { IfErr result (IsRefusal (source_at self.old source) caller) }
        ensures err { OnErr result (self.new ≡ self.old) }
        ensures sound { IsSoundPort (known self.new) }
    {
        let source = &mut self.sources[source];
        source.edit(caller, edit)
    }

    /// Takes a writer of a source out. It takes no memory.
    #[tactic(auto, using(crate::proofs::Knowing::source_changed, crate::proofs::Knowing::known_is_sound))]
    pub fn leave(&mut self, source: usize, caller: u32)
        requires source { source < length self.old.sources }
        requires is_in { IsIn (source_at self.old source) caller }
        ensures entered { self.new ≡ with_entry self.old source (record { caller = caller; edit = Edit.Leave; reply = Reply.Fine }) }
        ensures sound { IsSoundPort (known self.new) }
    {
        let source = &mut self.sources[source];
        source.leave(caller);
    }

    /// Takes a caller out of each source that it is a writer of. It takes no memory.
    pub fn leave_all(&mut self, caller: u32)
        requires { StaysWhereItWrites self.old caller }
        ensures left { self.new ≡ record self.old { sources = map (after_leave caller) self.old.sources } }
        ensures sound { IsSoundPort (known self.new) }
    {
        'sources: for source in 0..self.sources.len() {
            self.leave_if_writer(source, caller);
        }
        self.tells_what_is_sound();
    }

    /// Takes a caller out of a source, if it is a writer of it.
    fn leave_if_writer(&mut self, source: usize, caller: u32)
        requires source { source < length self.old.sources }
        requires stays { is_among caller (writers_of (source_at self.old source).plan.allow) ≡ true → has_left caller (source_at self.old source).history ≡ false }
        ensures { self.new ≡ record self.old { sources = slice_set self.old.sources source (after_leave caller (source_at self.old source)) } }
    {
        if self.source(source).has_writer(caller) {
            self.leave(source, caller);
        }
    }

    /// The states of the sources. It takes no memory.
    pub fn into_sources(self) -> Vec<SourceState>
        ensures { result.items ≡ self.sources }
    {
        let Plain { sources, .. } = self;
        sources
    }

    /// The state of a source.
    pub fn source(&self, source: usize) -> &SourceState
        requires { source < length self.now.sources }
        ensures { result.now ≡ source_at self.now source }
    {
        &self.sources[source]
    }

    /// The number of a leaf's source.
    #[tactic(auto, using(crate::proofs::Knowing::known_is_sound))]
    fn source_of(&self, leaf: usize) -> usize
        requires { leaf < length self.now.leaves }
        ensures source { result ≡ (leaf_at self.now leaf).source }
        ensures within { result < length self.now.sources }
        ensures sound { IsSoundPort (known self.now) }
    {
        self.bells.leaf(leaf).source
    }
}

impl Port for Plain {
    ghost use Rattle.std.specs.Prelude.{◌≡◌, length, refl};
    ghost use Rattle.std.proofs.Common.{◌∙◌};
    ghost use Rattle.sig_hist.specs.Plain.{known};

    type Told = Free;

    ghost state = { known };

    ghost is_same = { λ port next. next.sources ≡ port.sources };

    ghost is_told = { λ port told task. Unit {0} };

    #[tactic(auto, using(crate::proofs::Knowing::all_written, crate::proofs::Knowing::leaves_checked))]
    fn look(&mut self, leaf: usize) -> Version {
        let source = self.source_of(leaf);
        let version = version_of(self.source(source));
        self.bells.check(source, version);
        version
    }

    #[tactic(auto, using(crate::proofs::Knowing::known_fetched, crate::proofs::Knowing::known_refused))]
    fn fetch(&mut self, leaf: usize, from: Option<u32>) -> Result<Fetched, FetchError> {
        let source = self.source(self.source_of(leaf));
        fetched(source, from).map_err(|_| FetchError::NoMemory)
    }

    #[tactic(auto, using(crate::proofs::Knowing::known_armed))]
    fn arm(&mut self, leaf: usize) {
        self.bells.arm(leaf);
    }

    fn rest(&mut self, leaf: usize, at: u32, told: Free) -> Rested<Free> {
        let version = self.look(leaf);
        if version.count != at || version.closed {
            return Rested::News { version, told };
        }
        self.bells.settle();
        Rested::Waiting
    }

    ghost same_now = { λ port. refl };

    ghost same_later = { λ port next last first second. second ∙ first };

    ghost told_later = { λ port next told task same is_told. tt };
}

/// The sources at their start.
fn sources_of(alloc: Global, plans: Plans) -> Result<Vec<SourceState>, NoMemory>
    requires { All IsPlan plans }
    ensures { IfOk result (λ sources. sources.items ≡ map source_of plans) }
{
    let mut sources = Vec::with_capacity(alloc, plans.len())?;
    'plans: for plan in plans.into_vec() {
        sources.push(SourceState::new(alloc, plan)?)?;
    }
    Ok(sources)
}

/// What enters from a position to the end of a source's history.
fn fetched(source: &SourceState, from: Option<u32>) -> Result<Fetched, NoMemory>
    requires { IfSome from (λ position. position ≤ length source.now.history) }
    ensures version { IfOk result (λ fetched. fetched.version ≡ version_of source.now) }
    ensures entering { IfOk result (λ fetched. fetched.entering ≡ entering_from source.now from) }
{
    let entering = source.entering(from)?;
    Ok(Fetched {
        version: version_of(source),
        entering,
    })
}

fn version_of(source: &SourceState) -> Version
    ensures { result ≡ version_of source.now }
{
    Version {
        count: source.count(),
        closed: source.is_closed(),
    }
}
