ghost use Rattle.std.specs.Prelude.{◌≡◌, ◌<◌, ◌≤◌, ◌^◌, [], length, slice_get, false, IfSome, IfOk, OnOk, IfErr, OnErr};
ghost use Rattle.sig_hist.specs.Changes.{reply_to};
ghost use Rattle.sig_hist.specs.Entering.{entering_from};
ghost use Rattle.sig_hist.specs.Histories.{is_leave, is_closed};
ghost use Rattle.sig_hist.specs.Sources.{IsPlan, IsSource, IsIn, IsRefusal, MayEdit, content_of, entered, is_among, writers_of};

use crate::changes::execute;
use crate::edits::{Edit, Entry, History, Reply};
use crate::entering::{entering, whole};
use crate::plans::{EditError, SourcePlan};
use crate::ports::Entering;
use crate::writers::{Writer, has_number, have_left, place_of, room_of, writers_of};
use sig_diff::{Content, Items, NoMemory, TryCopy};
use std::alloc::Global;
use std::marker::Model;
use std::snapshot::Snapshot;

/// What a rule over shared sources sees of one.
pub trait Kept: Drop {
    ghost use Rattle.std.specs.Prelude.{List};
    ghost use Rattle.sig_hist.specs.declared.edits.Entry.{Entry};
    ghost use Rattle.sig_hist.specs.declared.plans.SourcePlan.{SourcePlan};

    ghost plan: { Self → SourcePlan };

    ghost history: { Self → List Entry };

    /// How many entries its history has.
    fn count(&self) -> u32
        ensures { result ≡ length (history self.now) };

    /// Whether each of its writers has left.
    fn is_closed(&self) -> bool
        ensures { result ≡ is_closed (writers_of (plan self.now).allow) (history self.now) };
}

/// A source on one thread: a content with the history of its edits. Contracts see its plan and its history.
#[derive(Drop)]
pub struct SourceState {
    plan: Snapshot<SourcePlan>,
    cap: u32,
    content: Content,
    writers: Vec<Writer>,
    history: Vec<Entry>,
}

impl Model for SourceState {
    ghost use Rattle.std.specs.Prelude.{vec_capacity};
    ghost use Rattle.sig_hist.specs.Sources.{Source};
    ghost use Rattle.sig_hist.specs.Counting.{IsKept};

    ghost Value = { Source };

    ghost view = { λ s. record { plan = s.plan.value; history = s.history.items } };

    ghost invariant = { λ s. IsKept (record { plan = s.plan.value; history = s.history.items }) s.cap s.content s.writers.items (vec_capacity s.history) };
}

impl SourceState {
    /// The source at its start. It reserves the room for its whole history.
    #[tactic(auto, using(crate::proofs::Counts::kept_start))]
    pub fn new(alloc: Global, plan: SourcePlan) -> Result<SourceState, NoMemory>
        requires { IsPlan plan }
        ensures { IfOk result (λ source. source ≡ record { plan = plan; history = [] }) }
    {
        let snapshot = Snapshot::of(&plan);
        let SourcePlan { start, cap, allow } = plan;
        let history = Vec::with_capacity(alloc, room_of(allow.as_slice()) as usize)?;
        Ok(SourceState {
            plan: snapshot,
            cap,
            content: start,
            writers: writers_of(alloc, allow.as_slice())?,
            history,
        })
    }

    /// Makes an edit, whether or not it has an effect, and puts it into the history with its reply. After a
    /// refusal the source is as it was. That the caller has made all its edits is looked at before memory is.
    pub fn edit(&mut self, caller: u32, edit: &Edit) -> Result<Reply, EditError>
        requires is_in { IsIn self.old caller }
        requires no_leave { is_leave edit.now ≡ false }
        ensures reply { IfOk result (λ reply. reply ≡ reply_to (content_of self.old) self.old.plan.cap edit.now) }
        ensures entered { IfOk result (λ reply. self.new ≡ entered self.old (record { caller = caller; edit = edit.now; reply = reply })) }
        ensures source { OnOk result (IsSource self.new) }
        ensures may { OnOk result (MayEdit self.old caller) }
        ensures refused { IfErr result (IsRefusal self.old caller) }
        ensures err { OnErr result (self.new ≡ self.old) }
    {
        self.check_allowance(caller)?;
        let edit = edit.copy()?;
        let reply = execute(&mut self.content, self.cap, &edit)?;
        let place = place_of(self.writers.as_slice(), caller);
        self.writers[place].left -= 1;
        self.history.push_reserved(Entry {
            caller,
            edit,
            reply,
        });
        Ok(reply)
    }

    /// Takes a writer out. It takes no memory.
    pub fn leave(&mut self, caller: u32)
        requires { IsIn self.old caller }
        ensures entered { self.new ≡ entered self.old (record { caller = caller; edit = Edit.Leave; reply = Reply.Fine }) }
        ensures source { IsSource self.new }
    {
        let place = place_of(self.writers.as_slice(), caller);
        self.writers[place].left = 0;
        self.history.push_reserved(Entry {
            caller,
            edit: Edit::Leave,
            reply: Reply::Fine,
        });
    }

    /// Whether a caller is one of the writers, or was one before it left.
    pub fn has_writer(&self, caller: u32) -> bool
        ensures { result ≡ is_among caller (writers_of self.now.plan.allow) }
    {
        has_number(self.writers.as_slice(), caller)
    }

    /// The content after all entries, and the history. It takes no memory.
    pub fn into_parts(self) -> (Content, History)
        ensures content { result.0 ≡ content_of self }
        ensures history { result.1 ≡ self.history }
        ensures few { length self.history < 2 ^ 32 }
    {
        let SourceState {
            content,
            history,
            ..
        } = self;
        (content, Items::from_vec(history))
    }

    /// The entry at a place of the history, from 0 on.
    pub fn entry(&self, place: u32) -> &Entry
        requires { place < length self.now.history }
        ensures { slice_get self.now.history place ≡ Some result.now }
    {
        &self.history[place as usize]
    }

    /// What enters a leaf that goes from a position to the end of the history: the difference of each entry that it
    /// passes, or the content whole where it passes more than 64, and where it has no position yet.
    pub fn entering(&self, from: Option<u32>) -> Result<Entering, NoMemory>
        requires { IfSome from (λ position. position ≤ length self.now.history) }
        ensures { IfOk result (λ entering. entering ≡ entering_from self.now from) }
    {
        match from {
            None => whole(&self.content),
            Some(position) => entering(&self.content, &self.history[position as usize..]),
        }
    }

    /// The content after all entries.
    pub fn content(&self) -> &Content
        ensures content { result.now ≡ content_of self.now }
        ensures source { IsSource self.now }
    {
        &self.content
    }

    /// Refuses a writer that has made all its edits.
    fn check_allowance(&self, caller: u32) -> Result<(), EditError>
        requires { IsIn self.now caller }
        ensures may { OnOk result (MayEdit self.now caller) }
        ensures refused { IfErr result (IsRefusal self.now caller) }
    {
        let writer = self.writers[place_of(self.writers.as_slice(), caller)];
        let is_spent = writer.left == 1;
        if is_spent {
            return Err(EditError::Spent {
                made: writer.allowance.edits,
            });
        }
        Ok(())
    }
}

impl Kept for SourceState {
    ghost plan = { λ source. source.plan };

    ghost history = { λ source. source.history };

    fn count(&self) -> u32 {
        self.history.len() as u32
    }

    #[tactic(auto, using(crate::proofs::Counts::are_out))]
    fn is_closed(&self) -> bool {
        have_left(self.writers.as_slice())
    }
}
