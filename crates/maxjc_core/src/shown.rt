// Builds a project and judges a report on it.
ghost use Rattle.std.specs.Prelude.{◌≡◌, ◌<◌, ◌^◌, List, ℕ, Err, IfOk, IfErr, length};
ghost use Rattle.maxjc_core.specs.CheckCauses.{IsOfCheck};
ghost use Rattle.maxjc_core.specs.CheckStops.{ShowsAs};
ghost use Rattle.maxjc_core.specs.Projects.{IsProjectOf};
ghost use Rattle.maxjc_core.specs.CompileStops.{IfRefused};

use crate::project::{Made, make_project};
use crate::stop::Stop;
use crate::stops::report_stop;
use latency_table::Table;
use manager_links::Project;
use project_check::check_report;
use schedule_report::Report;
use std::alloc::Global;

/// A project, and a report whose parts are shown for its kernels.
#[derive(Drop)]
pub struct Shown {
    pub project: Project,
    pub report: Report,
}

// The report of these bytes, each part of which is shown for its kernel of a project, or why it is
// refused. Apart from `show_project`, which owns the project.
fn shown_report<'a>(
    alloc: Global,
    project: &Project,
    latencies: &Table,
    report: &[u8],
) -> Result<Report, Stop<'a>>
    ensures shows { (source table : List ℕ) → IsProjectOf source table project.now latencies.now
        → IfOk result (ShowsAs source table report.now project.now) }
    ensures refused { (source table : List ℕ) → IsProjectOf source table project.now latencies.now
        → IfErr result (λ stop. IfRefused stop (IsOfCheck source table report.now)) }
    ensures no_read { result ≡ Err Stop.ReadFault → ⊥ }
{
    match check_report(alloc, project.kernels(), latencies, report) {
        Ok(shown) => Ok(shown),
        Err(error) => Err(report_stop(error)),
    }
}

// A project with the report of these bytes on it, or why that is refused.
fn show_project<'a>(alloc: Global, made: Made, report: &[u8]) -> Result<Shown, Stop<'a>>
    ensures shows { (source table : List ℕ) → IsProjectOf source table made.project made.latencies
        → IfOk result (λ s. ShowsAs source table report.now s.project s.report) }
    ensures refused { (source table : List ℕ) → IsProjectOf source table made.project made.latencies
        → IfErr result (λ stop. IfRefused stop (IsOfCheck source table report.now)) }
    ensures no_read { result ≡ Err Stop.ReadFault → ⊥ }
{
    let Made { project, latencies } = made;
    match shown_report(alloc, &project, &latencies, report) {
        Ok(report) => Ok(Shown { project, report }),
        Err(stop) => Err(stop),
    }
}

/// The project of the bytes of a source and of a latency table, and the report on it of these
/// bytes, each part of which is shown, or why they are refused.
pub fn show_report<'a>(
    alloc: Global,
    source: &[u8],
    table: &[u8],
    report: &[u8],
) -> Result<Shown, Stop<'a>>
    requires { length source.now < 2 ^ 32 }
    ensures shows { IfOk result (λ s. ShowsAs source.now table.now report.now s.project s.report) }
    ensures refused { IfErr result (λ stop. IfRefused stop (IsOfCheck source.now table.now report.now)) }
    ensures no_read { result ≡ Err Stop.ReadFault → ⊥ }
{
    match make_project(alloc, source, table) {
        Ok(made) => show_project(alloc, made, report),
        Err(stop) => Err(stop),
    }
}
