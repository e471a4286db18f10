use sig_diff::{Content, Items, Name};
use sig_expr::{SigExpr, View};
use sig_hist::Edit;

/// What a document asks for. A source's number counts the sources and then the shares.
#[derive(Debug, Drop)]
pub struct Script {
    pub version: u32,
    /// 1 to 16.
    pub sources: SourceDefs,
    /// At most 8.
    pub shares: ShareDefs,
    /// At most 16.
    pub writers: WriterDefs,
    /// 1 to 16.
    pub views: ViewDefs,
    /// At most 65,536.
    pub schedule: Events,
}

/// A source and what it starts with: at most 4,096 elements.
#[derive(Debug, Drop)]
pub struct SourceDef {
    pub name: Name,
    pub start: Content,
}

/// A signal that is given to a cell, and what the cell starts with.
#[derive(Debug, Drop)]
pub struct ShareDef {
    pub name: Name,
    pub start: i64,
    pub signal: SigExpr,
}

/// A writer and its edits, each with the number of its source: at most 4,096.
#[derive(Debug, Drop)]
pub struct WriterDef {
    pub name: Name,
    pub edits: Edits,
}

#[derive(Debug, Drop)]
pub struct ViewDef {
    pub name: Name,
    pub view: View,
}

/// One event of the schedule, by the number of its writer, share or view.
#[derive(Debug, Clone, Copy, PartialEq, Eq)]
pub enum Event {
    /// The writer's next edit, or after the last one its leave.
    Writer(usize),
    /// A poll of the share.
    Share(usize),
    /// A poll of the view.
    View(usize),
}

pub type SourceDefs = Items<SourceDef>;

pub type ShareDefs = Items<ShareDef>;

pub type WriterDefs = Items<WriterDef>;

pub type ViewDefs = Items<ViewDef>;

pub type Edits = Items<(usize, Edit)>;

pub type Events = Items<Event>;
