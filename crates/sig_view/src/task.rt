ghost use Rattle.std.specs.Prelude.{◌≡◌, ◌<◌, ◌≤◌, ◌+◌, true, false, length, replicate, None, IfOk, OnOk, OnErr};
ghost use Rattle.sig_expr.specs.Bounds.{cap_of};
ghost use Rattle.sig_expr.specs.Awaited.{awaits};
ghost use Rattle.sig_expr.specs.Leaves.{leaves};
ghost use Rattle.sig_expr.specs.Shapes.{view_tree};
ghost use Rattle.sig_hist.specs.Ports.{PortState};
ghost use Rattle.sig_hist.specs.Sources.{AreDistinct};
ghost use Rattle.sig_walk.specs.Fetching.{AreFetched, HasTried, at_start, content_in};
ghost use Rattle.sig_view.specs.FirstPolls.{HasBegun};
ghost use Rattle.sig_rows.specs.Flow.{flow, tags_after, with_tags};
ghost use Rattle.sig_view.specs.GoingOn.{HasGoneOn, HasLost, HasStepped, IsAnswered, IsBehind};
ghost use Rattle.sig_expr.specs.Lengths.{longest};
ghost use Rattle.sig_nodes.specs.Nodes.{op_tags, view_ops, view_tree_of, ViewStands};
ghost use Rattle.sig_view.specs.Polling.{IsPoll, IsSameTask};
ghost use Rattle.sig_hist.specs.Ways.{contents_at, ways};
ghost use Rattle.sig_nodes.specs.Starting.{IsViewStarted, leaf_length};
ghost use Rattle.sig_view.specs.Tasks.{IsNew, IsReady, begun, contents_got, first_of, following, has_row, is_begun, is_ended, is_following, ops_of, positions_of, view_of};
ghost use Rattle.sig_walk.specs.Walking.{CanWalk, HasGone, HasLeaves, HasNews, HasWalked, cap_at, set_out, sources_in};
ghost use Rattle.sig_view.specs.declared.task.ViewTask.{ViewTask};

use sig_diff::{Content, NoMemory};
use sig_expr::{Caps, View, leaves};
use sig_hist::Port;
use sig_nodes::{ViewNode, view_node};
use sig_rows::{Body, Positions, Row};
use sig_walk::{Waited, Walk, fetch_all};
use std::alloc::Global;
use std::snapshot::Snapshot;

/// The answer to a poll.
#[derive(Debug, Drop)]
pub enum Polled<T> {
    /// The view goes on by a row: the first one, or a leaf has gone on. The token comes back. A held word was found
    /// where `held` names it.
    Batch {
        row: Row,
        told: T,
        held: Option<u64>,
    },
    /// Nothing has happened, and the bell of each leaf that can go on is set: the task waits, and the token is spent.
    Pending,
    /// The first row lacks a leaf, or no leaf has gone on, and a held word was found. The token comes back.
    Again {
        word: u64,
        told: T,
    },
    /// All sources that the view awaits are at their ends, and so is the view.
    Ended,
    /// Memory was wanting. The view has failed.
    NoMemory,
    /// Memory was wanting in an earlier poll.
    Failed,
}

/// Where a task stands.
#[derive(Debug, Drop)]
pub enum Stage {
    /// Before the first row: the contents of the leaves that were fetched.
    Fetching(Vec<Option<Content>>),
    /// After the first row.
    Following(ViewNode),
    Ended,
    /// A poll found no memory. Whether a row was given before that.
    Failed(bool),
}

/// A view that is polled: each poll takes it along the histories of its leaves' sources, as far as a port shows them,
/// and answers by what it gives on the way.
///
/// Of those at least 3 of the vector 4, 1 the first poll gives a row at 0 that replaces all by 4, and the next one answers `Pending`. After a
/// push of 7 a poll gives a row at 1 that pushes 7, after the leave of the only writer one at 2 without a difference, and the poll after that
/// answers `Ended`.
#[derive(Drop)]
pub struct ViewTask {
    alloc: Global,
    view: View,
    caps: Snapshot<Caps>,
    walk: Walk,
    stage: Stage,
}

impl ViewTask {
    /// The view before its first poll. Its leaf i is the port's leaf `first_leaf` + i, and `caps` are the caps of the sources.
    pub fn new(
        alloc: Global,
        view: View,
        caps: &Caps,
        first_leaf: usize,
    ) -> Result<ViewTask, NoMemory>
        requires { longest (cap_of caps.now) (view_tree view) ≤ 65536 }
        ensures { IfOk result (IsNew view caps.now first_leaf) }
    {
        let (walk, stage) = before_first(alloc, &view, first_leaf)?;
        Ok(ViewTask {
            alloc,
            view,
            caps: Snapshot::of(caps),
            walk,
            stage,
        })
    }

    /// How many entries of its source's history each leaf has passed. A leaf that isn't fetched yet has passed none.
    pub fn positions(&self) -> &[u32]
        ensures { result.now ≡ positions_of self.now }
    {
        self.walk.positions()
    }

    /// Whether the view has ended.
    pub fn is_ended(&self) -> bool
        ensures { result ≡ is_ended self.now }
    {
        matches!(&self.stage, Stage::Ended)
    }

    /// Whether the view has given a row.
    pub fn has_row(&self) -> bool
        ensures { result ≡ has_row self.now }
    {
        match &self.stage {
            Stage::Fetching(_) => false,
            Stage::Following(_) | Stage::Ended => true,
            Stage::Failed(rows) => *rows,
        }
    }

    /// Takes the view along as far as the port shows, and answers by what happened.
    pub fn poll<P: Port>(&mut self, port: &mut P, told: P::Told) -> Polled<P::Told>
        requires open { is_ended self.old ≡ false }
        requires ready { IsReady (P.state port.old) self.old }
        requires told { P.is_told port.old told ((P.state port.old).task (first_of self.old)) }
        ensures same { P.is_same port.old port.new }
        ensures poll { IsPoll (P.state port.old) (P.state port.new) self.old self.new told result }
    {
        match self.stage {
            Stage::Fetching(_) => self.begin(port, told),
            Stage::Following(_) => self.follow(port, told),
            Stage::Ended => unreachable!(),
            Stage::Failed(_) => Polled::Failed,
        }
    }

    /// A poll before the first row.
    fn begin<P: Port>(&mut self, port: &mut P, told: P::Told) -> Polled<P::Told>
        requires begins { is_begun self.old ≡ false }
        requires ready { IsReady (P.state port.old) self.old }
        requires told { P.is_told port.old told ((P.state port.old).task (first_of self.old)) }
        ensures same { P.is_same port.old port.new }
        ensures poll { IsPoll (P.state port.old) (P.state port.new) self.old self.new told result }
    {
        match self.fetch(port) {
            Ok(()) => match self.walk.held {
                Some(word) => Polled::Again { word, told },
                None => self.give_first(told),
            },
            Err(_) => {
                self.fail_at_first();
                Polled::NoMemory
            }
        }
    }

    /// Fetches each leaf that is missing, from left to right.
    fn fetch<P: Port>(&mut self, port: &mut P) -> Result<(), NoMemory>
        requires begins { begun self.old.stage ≡ false }
        requires ready { IsReady (P.state port.old) self.old }
        ensures same { P.is_same port.old port.new }
        ensures task { IsSameTask self.old self.new }
        ensures gone { HasGone (P.state port.old) (P.state port.new) self.old.walk self.new.walk }
        ensures begun { OnOk result (HasBegun (P.state port.old) (P.state port.new) self.old self.new) }
    {
        self.walk.set_out();
        fetch_into(port, &mut self.walk, &mut self.stage)
    }

    /// Gives the first row, where no leaf is missing.
    fn give_first<T: Drop>(&mut self, told: T) -> Polled<T>
        requires fetching { begun self.old.stage ≡ false }
        requires short { longest (leaf_length (content_in (contents_got self.old.stage))) (view_of self.old) ≤ 65536 }
        requires room { length (leaves (view_tree self.old.view)) ≤ length (contents_got self.old.stage) }
        ensures poll { (s t : PortState) (old : ViewTask) → HasBegun s t old self.old → self.old.walk.held ≡ None → IsPoll s t old self.new told result }
    {
        match self.first_row() {
            Ok((node, row)) => {
                self.go_on_by(node);
                Polled::Batch {
                    row,
                    told,
                    held: None,
                }
            }
            Err(_) => {
                self.fail_at_first();
                Polled::NoMemory
            }
        }
    }

    /// The view's operators, started on what was fetched, and its first row.
    fn first_row(&self) -> Result<(ViewNode, Row), NoMemory>
        requires fetching { begun self.now.stage ≡ false }
        requires short { longest (leaf_length (content_in (contents_got self.now.stage))) (view_of self.now) ≤ 65536 }
        requires room { length (leaves (view_tree self.now.view)) ≤ length (contents_got self.now.stage) }
        ensures at { IfOk result (λ made. made.1.at ≡ self.now.walk.positions) }
        ensures started { IfOk result (λ made. IsViewStarted (content_in (contents_got self.now.stage)) (view_of self.now) (view_ops made.0) made.1.body) }
    {
        match &self.stage {
            Stage::Fetching(contents) => {
                let at = copied(self.alloc, self.walk.positions())?;
                let (node, body) = view_node(self.alloc, &self.view, contents.as_slice())?;
                Ok((node, Row { at, body }))
            }
            _ => unreachable!(),
        }
    }

    /// Goes on by its operators, after the first row.
    fn go_on_by(&mut self, node: ViewNode)
        ensures { self.new ≡ record self.old { stage = Stage.Following node } }
    {
        put_stage(&mut self.stage, Stage::Following(node));
    }

    /// Memory was wanting before the first row.
    fn fail_at_first(&mut self)
        ensures { self.new ≡ record self.old { stage = Stage.Failed false } }
    {
        put_stage(&mut self.stage, Stage::Failed(false));
    }
}

/// Fetches for a view's stage before its first row.
fn fetch_into<P: Port>(port: &mut P, walk: &mut Walk, stage: &mut Stage) -> Result<(), NoMemory>
    requires begins { begun stage.old ≡ false }
    requires can { CanWalk (P.state port.old) walk.old }
    requires held { walk.old.held ≡ None }
    requires each { length (contents_got stage.old) ≡ length walk.old.positions }
    requires fetched { AreFetched (contents_at (sources_in (P.state port.old) walk.old) walk.old.positions) (length (contents_got stage.old)) (contents_got stage.old) }
    ensures same { P.is_same port.old port.new }
    ensures gone { HasGone (P.state port.old) (P.state port.new) walk.old walk.new }
    ensures begun { begun stage.new ≡ false }
    ensures tried { OnOk result (HasTried (P.state port.old) (P.state port.new) walk.old walk.new (contents_got stage.old) (contents_got stage.new) (length (contents_got stage.old))) }
{
    match stage {
        Stage::Fetching(contents) => fetch_all(port, walk, contents.as_mut_slice()),
        _ => unreachable!(),
    }
}

/// Comes to another stage.
fn put_stage(stage: &mut Stage, next: Stage)
    ensures { stage.new ≡ next }
{
    *stage = next;
}

/// A list of these positions.
pub fn copied(alloc: Global, positions: &[u32]) -> Result<Positions, NoMemory>
    ensures { IfOk result (λ copy. copy ≡ positions.now) }
{
    Ok(Positions::from_vec(Vec::from_slice(alloc, positions)?))
}

/// A view's walk and stage before its first poll.
fn before_first(alloc: Global, view: &View, first: usize) -> Result<(Walk, Stage), NoMemory>
    ensures walk { IfOk result (λ start. start.0 ≡ at_start first (length (leaves (view_tree view.now)))) }
    ensures begun { IfOk result (λ start. begun start.1 ≡ false) }
    ensures contents { IfOk result (λ start. contents_got start.1 ≡ replicate (length (leaves (view_tree view.now))) None) }
{
    let count = leaf_count(alloc, view)?;
    let walk = Walk::new(alloc, first, count)?;
    Ok((walk, Stage::Fetching(nothing(alloc, count)?)))
}

/// How many leaves a view has.
fn leaf_count(alloc: Global, view: &View) -> Result<usize, NoMemory>
    ensures { IfOk result (λ count. count ≡ length (leaves (view_tree view.now))) }
{
    let list = leaves(alloc, view)?;
    Ok(list.len())
}

/// A place for each leaf's content, with nothing in it.
fn nothing(alloc: Global, count: usize) -> Result<Vec<Option<Content>>, NoMemory>
    ensures { IfOk result (λ contents. contents.items ≡ replicate count None) }
{
    let mut contents = Vec::new(alloc);
    'places: for _place in 0..count {
        contents.push(None)?;
    }
    Ok(contents)
}

// ---- after the first row

/// What a walk over all leaves came to.
#[derive(Drop)]
enum Going<T> {
    /// The poll's answer.
    Answered(Polled<T>),
    /// Nothing has happened. The token comes back.
    Nowhere(T),
}

impl ViewTask {
    /// A poll after the first row.
    fn follow<P: Port>(&mut self, port: &mut P, told: P::Told) -> Polled<P::Told>
        requires follows { is_following self.old ≡ true }
        requires ready { IsReady (P.state port.old) self.old }
        requires told { P.is_told port.old told ((P.state port.old).task (first_of self.old)) }
        ensures same { P.is_same port.old port.new }
        ensures poll { IsPoll (P.state port.old) (P.state port.new) self.old self.new told result }
    {
        match self.go_on(port, told) {
            Going::Answered(polled) => polled,
            Going::Nowhere(told) => match self.walk.last_open() {
                None => self.end(),
                Some(last) => match self.walk.wait(port, last, told) {
                    Waited::Rests => Polled::Pending,
                    Waited::News(told) => self.look_again(port, told),
                },
            },
        }
    }

    /// Walks once more, where a source has shown more than its leaf has passed.
    fn look_again<P: Port>(&mut self, port: &mut P, told: P::Told) -> Polled<P::Told>
        requires follows { is_following self.old ≡ true }
        requires ready { IsReady (P.state port.old) self.old }
        requires behind { IsBehind (P.state port.old) self.old }
        ensures same { P.is_same port.old port.new }
        ensures again { HasGoneOn (P.state port.old) (P.state port.new) self.old self.new told (Going.Answered result) }
    {
        match self.go_on(port, told) {
            Going::Answered(polled) => polled,
            Going::Nowhere(_) => unreachable!(),
        }
    }

    /// Takes all leaves along, and answers where that gives an answer.
    fn go_on<P: Port>(&mut self, port: &mut P, told: P::Told) -> Going<P::Told>
        requires follows { is_following self.old ≡ true }
        requires ready { IsReady (P.state port.old) self.old }
        ensures same { P.is_same port.old port.new }
        ensures gone_on { HasGoneOn (P.state port.old) (P.state port.new) self.old self.new told result }
    {
        match self.step(port) {
            Ok(body) => self.answer(body, told),
            Err(_) => Going::Answered(Polled::NoMemory),
        }
    }

    /// Takes all leaves along, and gives what the view gives for that. Where memory is wanting the view fails.
    fn step<P: Port>(&mut self, port: &mut P) -> Result<Body, NoMemory>
        requires follows { is_following self.old ≡ true }
        requires ready { IsReady (P.state port.old) self.old }
        ensures same { P.is_same port.old port.new }
        ensures stepped { IfOk result (HasStepped (P.state port.old) (P.state port.new) self.old self.new) }
        ensures lost { OnErr result (HasLost (P.state port.old) (P.state port.new) self.old self.new) }
    {
        match walk_on(self.alloc, &mut self.stage, port, &mut self.walk) {
            Ok(body) => Ok(body),
            Err(error) => {
                put_stage(&mut self.stage, Stage::Failed(true));
                Err(error)
            }
        }
    }

    /// Answers by what a walk has met.
    fn answer<T: Drop>(&mut self, body: Body, told: T) -> Going<T>
        ensures { IsAnswered self.old self.new body told result }
    {
        if self.walk.moved {
            return self.give(body, told);
        }
        match self.walk.held {
            Some(word) => Going::Answered(Polled::Again { word, told }),
            None => Going::Nowhere(told),
        }
    }

    /// The row after a leaf has gone on.
    fn give<T: Drop>(&mut self, body: Body, told: T) -> Going<T>
        requires { self.old.walk.moved ≡ true }
        ensures { IsAnswered self.old self.new body told result }
    {
        let held = self.walk.held;
        match copied(self.alloc, self.walk.positions()) {
            Ok(at) => {
                let row = Row { at, body };
                Going::Answered(Polled::Batch { row, told, held })
            }
            Err(_) => {
                put_stage(&mut self.stage, Stage::Failed(true));
                Going::Answered(Polled::NoMemory)
            }
        }
    }

    /// No leaf can go on.
    fn end<T>(&mut self) -> Polled<T>
        ensures stage { self.new ≡ record self.old { stage = Stage.Ended } }
        ensures ended { result ≡ Polled.Ended }
    {
        put_stage(&mut self.stage, Stage::Ended);
        Polled::Ended
    }
}

/// Walks over all leaves.
fn walk_on<P: Port>(
    alloc: Global,
    stage: &mut Stage,
    port: &mut P,
    walk: &mut Walk,
) -> Result<Body, NoMemory>
    requires follows { following stage.old ≡ true }
    requires can { CanWalk (P.state port.old) walk.old }
    requires leaves { HasLeaves walk.old (leaves (view_tree_of (ops_of stage.old))) }
    requires apart { AreDistinct (leaves (view_tree_of (ops_of stage.old))) }
    requires short { longest (cap_at (sources_in (P.state port.old) walk.old)) (view_tree_of (ops_of stage.old)) ≤ 65536 }
    requires stands { ViewStands (contents_at (sources_in (P.state port.old) walk.old) walk.old.positions) (ops_of stage.old) }
    ensures same { P.is_same port.old port.new }
    ensures gone { HasGone (P.state port.old) (P.state port.new) walk.old walk.new }
    ensures walked { OnOk result (HasWalked (P.state port.old) (P.state port.new) (set_out walk.old) walk.new (awaits (contents_at (sources_in (P.state port.new) walk.new) walk.new.positions) (view_tree_of (ops_of stage.old)))) }
    ensures flow { IfOk result (λ body. body ≡ with_tags (op_tags (ops_of stage.old)) (flow (ways (sources_in (P.state port.new) walk.new) walk.old.positions walk.new.positions) (view_tree_of (ops_of stage.old)))) }
    ensures tags { OnOk result (op_tags (ops_of stage.new) ≡ tags_after (op_tags (ops_of stage.old)) (flow (ways (sources_in (P.state port.new) walk.new) walk.old.positions walk.new.positions) (view_tree_of (ops_of stage.old)))) }
    ensures stands { OnOk result (ViewStands (contents_at (sources_in (P.state port.new) walk.new) walk.new.positions) (ops_of stage.new)) }
    ensures tree { OnOk result (view_tree_of (ops_of stage.new) ≡ view_tree_of (ops_of stage.old)) }
    ensures follows { OnOk result (following stage.new ≡ true) }
    ensures news { OnErr result (HasNews (P.state port.new) walk.old) }
{
    walk.set_out();
    match stage {
        Stage::Following(node) => node.step(alloc, port, walk),
        _ => unreachable!(),
    }
}
