use sig_diff::{Content, Items, Name};
use sig_expr::Shown;
use sig_hist::History;
use sig_rows::Rows;
use sig_script::ViewKind;

/// What a script did: the history of each source and the rows of each view.
#[derive(Debug, Drop)]
pub struct Report {
    /// The sources, and then the shares.
    pub sources: SourceReports,
    /// The shares, and then the views.
    pub views: ViewReports,
}

/// A source by its name: how it started, what was done to it, and its last content.
#[derive(Debug, Drop)]
pub struct SourceReport {
    pub name: Name,
    pub start: Content,
    /// Its callers are the writers by their numbers, and then the shares.
    pub history: History,
    pub last: Content,
}

/// A view by its name: its rows and the last that they show.
#[derive(Debug, Drop)]
pub struct ViewReport {
    pub name: Name,
    pub kind: ViewKind,
    pub rows: Rows,
    pub last: Shown,
}

pub type SourceReports = Items<SourceReport>;

pub type ViewReports = Items<ViewReport>;
