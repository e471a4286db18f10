ghost use Rattle.std.specs.Prelude.{◌≡◌, ◌≤◌, ◌∷◌, ◌++◌, [], false, IfOk, OnErr, OnOk};
ghost use Rattle.sig_expr.specs.Bounds.{cap_of};
ghost use Rattle.sig_expr.specs.Lengths.{longest};
ghost use Rattle.sig_expr.specs.Shapes.{view_tree};
ghost use Rattle.sig_view.specs.Tasks.{first_of, is_ended, positions_of};
ghost use Rattle.sig_view.specs.Watching.{HasWatched, IsUnpolled, IsWatching};

use crate::task::{Polled, ViewTask, copied};
use sig_diff::NoMemory;
use sig_expr::{Caps, View};
use sig_hist::Port;
use sig_rows::{Body, Row, Rows};
use std::alloc::Global;

/// A view and the rows that its polls gave: they are sound for all that its sources come to, and at each of them their
/// replay is the view from scratch.
#[derive(Drop)]
pub struct WatchedView {
    pub task: ViewTask,
    pub rows: Rows,
}

/// The answer to a poll of a watched view.
#[derive(Debug, Drop)]
pub enum Watched<T> {
    /// The view has a row more. The token comes back. A held word was found where `held` names it.
    Row { told: T, held: Option<u64> },
    /// Nothing has happened: the task waits, and the token is spent.
    Pending,
    /// A held word was found, and there is no row more. The token comes back.
    Again { word: u64, told: T },
    /// The view has ended, and has an ended row more.
    Ended,
    /// Memory was wanting. The rows are sound, and no more will come.
    NoMemory,
}

impl WatchedView {
    /// The view before its first row. Its leaf i is the port's leaf `first_leaf` + i, and `caps` are the caps of the
    /// sources.
    pub fn new(
        alloc: Global,
        view: View,
        caps: &Caps,
        first_leaf: usize,
    ) -> Result<WatchedView, NoMemory>
        requires { longest (cap_of caps.now) (view_tree view) ≤ 65536 }
        ensures { IfOk result (IsUnpolled view caps.now first_leaf) }
    {
        Ok(WatchedView {
            task: ViewTask::new(alloc, view, caps, first_leaf)?,
            rows: Rows::new(alloc),
        })
    }

    /// The rows. It takes no memory.
    pub fn into_rows(self) -> Rows
        ensures { result ≡ self.rows }
    {
        let WatchedView { rows, .. } = self;
        rows
    }

    /// Whether the view has ended.
    pub fn is_ended(&self) -> bool
        ensures { result ≡ is_ended self.now.task }
    {
        self.task.is_ended()
    }

    /// Takes the view along as far as the port shows, and keeps the row that this gives.
    pub fn poll<P: Port>(&mut self, alloc: Global, port: &mut P, told: P::Told) -> Watched<P::Told>
        requires open { is_ended self.old.task ≡ false }
        requires watching { IsWatching (P.state port.old) self.old }
        requires told { P.is_told port.old told ((P.state port.old).task (first_of self.old.task)) }
        ensures same { P.is_same port.old port.new }
        ensures watched { HasWatched (P.state port.old) (P.state port.new) self.old self.new told result }
    {
        match self.task.poll(port, told) {
            Polled::Batch { row, told, held } => match self.rows.push(row) {
                Ok(()) => Watched::Row { told, held },
                Err(_) => Watched::NoMemory,
            },
            Polled::Pending => Watched::Pending,
            Polled::Again { word, told } => Watched::Again { word, told },
            Polled::Ended => match self.push_end(alloc) {
                Ok(()) => Watched::Ended,
                Err(_) => Watched::NoMemory,
            },
            Polled::NoMemory => Watched::NoMemory,
            Polled::Failed => Watched::NoMemory,
        }
    }

    /// Puts the ended row at the end of the rows.
    fn push_end(&mut self, alloc: Global) -> Result<(), NoMemory>
        ensures task { self.new.task ≡ self.old.task }
        ensures rows { OnOk result (self.new.rows ≡ self.old.rows ++ record { at = positions_of self.old.task; body = Body.Ended } ∷ []) }
        ensures none { OnErr result (self.new.rows ≡ self.old.rows) }
    {
        let at = copied(alloc, self.task.positions())?;
        self.rows.push(Row {
            at,
            body: Body::Ended,
        })
    }
}
