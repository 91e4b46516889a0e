// The links of a project at the times of a report.
ghost use Rattle.std.specs.Prelude.{◌≡◌, ◌<◌, ◌^◌, ℤ, List, All, Err, IfOk, IfErr, length};
ghost use Rattle.manager_links.specs.Links.{AreLinksOf, IsWithinLimit, MayBeTooDeep};
ghost use Rattle.manager_links.specs.Starts.{AreTimes};
ghost use Rattle.manager_links.specs.declared.project.Project.{Project};
ghost use Rattle.maxjc_core.specs.ExpectCauses.{IsTooDeep, HasNoLinks};
ghost use Rattle.maxjc_core.specs.Expecting.{report_times};
ghost use Rattle.maxjc_core.specs.ExpectStops.{LinksAs};
ghost use Rattle.maxjc_core.specs.CompileStops.{IfRefused};

use crate::refusal::Refusal;
use crate::shown::{Shown, show_report};
use crate::stop::Stop;
use manager_links::{LinkError, Links, Project, starts};
use mx_base::{List, NoMemory};
use schedule_report::Report;
use std::alloc::Global;

/// A project, the times that a report shows of its kernels, a list for each, and the links that it
/// has at them.
#[derive(Drop)]
pub struct Linked {
    pub project: Project,
    pub times: List<List<i64>>,
    pub links: Links,
}

// The times that a report says, a list for each kernel.
fn times_of(alloc: Global, report: Report) -> Result<List<List<i64>>, NoMemory>
    ensures { IfOk result (λ times. times ≡ report_times report) }
{
    let mut times = List::new(alloc);
    for part in report.kernels.into_vec() {
        times.push(part.times)?;
    }
    Ok(times)
}

// What links stop with that could not be made at these times of a project.
fn link_stop<'a>(error: LinkError) -> Stop<'a>
    requires deep { (project : Project) × (times : List (List ℤ)) × MayBeTooDeep project times error }
    ensures cause { (project : Project) (times : List (List ℤ)) → MayBeTooDeep project times error
        → IfRefused result (IsTooDeep project times) }
    ensures no_read { result ≡ Stop.ReadFault → ⊥ }
{
    match error {
        LinkError::LinkTooDeep(link, words) => Stop::Refused(Refusal::LinkTooDeep(link, words)),
        LinkError::NoMemory => Stop::NoMemory,
        _ => unreachable!("links are refused by their depth alone"),
    }
}

// The links of a project at these times, or the first that is too deep.
fn links_at<'a>(alloc: Global, project: &Project, times: &[List<i64>]) -> Result<Links, Stop<'a>>
    requires { AreTimes project.now.kernels times.now }
    ensures links { IfOk result (AreLinksOf project.now times.now) }
    ensures within { IfOk result (λ made. All IsWithinLimit made.links) }
    ensures refused { IfErr result (λ stop. IfRefused stop (IsTooDeep project.now times.now)) }
    ensures no_read { result ≡ Err Stop.ReadFault → ⊥ }
{
    match starts(alloc, project, times) {
        Ok(links) => Ok(links),
        Err(error) => Err(link_stop(error)),
    }
}

// The times of a report, and the links of a project at them, or the first that is too deep. Apart
// from `link_project`, which owns the project, so that no error here drops it.
fn links_of<'a>(
    alloc: Global,
    project: &Project,
    report: Report,
) -> Result<(List<List<i64>>, Links), Stop<'a>>
    requires { AreTimes project.now.kernels (report_times report) }
    ensures times { IfOk result (λ made. made.0 ≡ report_times report) }
    ensures links { IfOk result (λ made. AreLinksOf project.now made.0 made.1) }
    ensures within { IfOk result (λ made. All IsWithinLimit made.1.links) }
    ensures refused { IfErr result (λ stop.
        IfRefused stop (IsTooDeep project.now (report_times report))) }
    ensures no_read { result ≡ Err Stop.ReadFault → ⊥ }
{
    let times = times_of(alloc, report)?;
    match links_at(alloc, project, times.as_slice()) {
        Ok(links) => Ok((times, links)),
        Err(stop) => Err(stop),
    }
}

/// The project of the bytes of a source and of a latency table, with its links at the times of the
/// report of these bytes, or why there are none.
pub fn link_project<'a>(
    alloc: Global,
    source: &[u8],
    table: &[u8],
    report: &[u8],
) -> Result<Linked, Stop<'a>>
    requires { length source.now < 2 ^ 32 }
    ensures linked { IfOk result (LinksAs source.now table.now report.now) }
    ensures refused { IfErr result (λ stop. IfRefused stop (HasNoLinks source.now table.now report.now)) }
    ensures no_read { result ≡ Err Stop.ReadFault → ⊥ }
{
    match show_report(alloc, source, table, report) {
        Ok(Shown { project, report }) => match links_of(alloc, &project, report) {
            Ok((times, links)) => Ok(Linked {
                project,
                times,
                links,
            }),
            Err(stop) => Err(stop),
        },
        Err(stop) => Err(stop),
    }
}
