ghost use Rattle.std.specs.Prelude.{◌≡◌, ◌<◌, ◌^◌, length, All, IfOk};
ghost use Rattle.sig_report.specs.Lawful.{kind_of_view};
ghost use Rattle.sig_run.specs.Reporting.{AreOver, report_of, reports_of, view_report_of, view_reports_of};
ghost use Rattle.sig_run.specs.Showing.{IsOver};

use crate::showing::last_shown;
use sig_diff::{NoMemory, TryCopy};
use sig_expr::View;
use sig_hist::SourceState;
use sig_report::{SourceReport, SourceReports, ViewReport, ViewReports};
use sig_script::{SourceDef, ViewDef, ViewKind};
use sig_view::WatchedView;
use std::alloc::Global;

/// The reports of a script's sources.
pub fn source_reports(
    alloc: Global,
    defs: &[SourceDef],
    sources: Vec<SourceState>,
) -> Result<SourceReports, NoMemory>
    ensures reports { IfOk result (λ reports. reports ≡ reports_of defs.now sources.items) }
    ensures few { IfOk result (λ reports. All (λ report. length report.history < 2 ^ 32) reports) }
{
    let mut reports = SourceReports::new(alloc);
    'sources: for (def, source) in defs.iter().zip(sources) {
        reports.push(source_report(def, source)?)?;
    }
    Ok(reports)
}

fn source_report(def: &SourceDef, source: SourceState) -> Result<SourceReport, NoMemory>
    ensures report { IfOk result (λ report. report ≡ report_of def.now source) }
    ensures few { IfOk result (λ report. length report.history < 2 ^ 32) }
{
    let (last, history) = source.into_parts();
    Ok(SourceReport {
        name: def.name.copy()?,
        start: def.start.copy()?,
        history,
        last,
    })
}

/// The reports of a script's views, all of which are over, by the reports of its sources.
pub fn view_reports(
    alloc: Global,
    defs: &[ViewDef],
    views: Vec<WatchedView>,
    sources: &[SourceReport],
) -> Result<ViewReports, NoMemory>
    requires { AreOver sources.now defs.now views.items }
    ensures { IfOk result (λ reports. reports ≡ view_reports_of defs.now views.items) }
{
    let mut reports = ViewReports::new(alloc);
    'views: for (def, view) in defs.iter().zip(views) {
        reports.push(view_report(alloc, def, view, sources)?)?;
    }
    Ok(reports)
}

fn view_report(
    alloc: Global,
    def: &ViewDef,
    view: WatchedView,
    sources: &[SourceReport],
) -> Result<ViewReport, NoMemory>
    requires { IsOver sources.now def.now.view view.rows }
    ensures { IfOk result (λ report. report ≡ view_report_of def.now view) }
{
    let rows = view.into_rows();
    let last = last_shown(alloc, &def.view, &rows, sources)?;
    Ok(ViewReport {
        name: def.name.copy()?,
        kind: kind_of(&def.view),
        rows,
        last,
    })
}

fn kind_of(view: &View) -> ViewKind
    ensures { result ≡ kind_of_view view.now }
{
    match view {
        View::Signal(_) => ViewKind::Signal,
        View::Vector(_) => ViewKind::Vector,
        View::Map(_) => ViewKind::Map,
        View::Entries(_) => ViewKind::Entries,
        View::Enumerate(_) => ViewKind::Enumerate,
    }
}
