// What the design of a project needs.
ghost use Rattle.std.specs.Prelude.{◌≡◌, All, IfOk, IfErr};
ghost use Rattle.manager_links.specs.Links.{AreLinksOf, IsWithinLimit};
ghost use Rattle.manager_links.specs.Starts.{AreTimes};
ghost use Rattle.project_netlists.specs.Lines.{IsOfThese};
ghost use Rattle.project_netlists.specs.Netlists.{HasPortName, AreNetlistsOf};
ghost use Rattle.project_netlists.specs.Refused.{IsRefused, MayHaveDeepLink};

use crate::NetlistsError;
use crate::netlists::netlists;
use crate::schedules::{schedules, times_of};
use latency_table::Table;
use manager_links::{LinkError, Links, Project, starts};
use mx_base::List;
use rtl_ir::Module;
use schedule_report::ReportKernel;
use std::alloc::Global;

/// What the design of a project needs: for each kernel, in the order of the project, its part of a
/// report and its module at its least schedule; and the starts of the kernels, with the links
/// between them.
#[derive(Drop)]
pub struct ProjectNetlists {
    pub parts: List<ReportKernel>,
    pub inners: Vec<Module>,
    pub links: Links,
}

// The links of a project whose kernels have these times.
fn links_of(alloc: Global, project: &Project, times: &[List<i64>]) -> Result<Links, NetlistsError>
    requires { AreTimes project.now.kernels times.now }
    ensures links { IfOk result (AreLinksOf project.now times.now) }
    ensures within { IfOk result (λ made. All IsWithinLimit made.links) }
    ensures refused { IfErr result (MayHaveDeepLink project.now times.now) }
{
    match starts(alloc, project, times) {
        Ok(links) => Ok(links),
        Err(LinkError::LinkTooDeep(link, words)) => Err(NetlistsError::LinkTooDeep(link, words)),
        Err(LinkError::NoMemory) => Err(NetlistsError::NoMemory),
        Err(_) => unreachable!("links are refused by their depth alone"),
    }
}

/// For each kernel of a project its module at its least schedule by a latency table, and what a
/// report says of it; and the starts and links of the project at the times of these schedules, the
/// earliest of those whose FIFOs hold the fewest bits. Each kernel's name is a letter and then
/// letters, digits and `_`.
///
/// Errors, of which the first that stands is answered: `Schedule` of the first kernel that has no
/// schedule; `TooManyBits` of the first kernel each of whose schedules has FIFOs of more than 2^28
/// bits, with the fewest that they may hold; `LinkTooDeep` of the first link that would hold more
/// than 65,536 words. `NoMemory` says nothing.
pub fn project_netlists(
    alloc: Global,
    project: &Project,
    table: &Table,
) -> Result<ProjectNetlists, NetlistsError>
    requires names { All HasPortName project.now.kernels }
    ensures made { IfOk result (AreNetlistsOf table.now project.now) }
    ensures refused { IfErr result (IsRefused table.now project.now) }
    ensures of { IfErr result (IsOfThese project.now.kernels) }
{
    let kernels = project.kernels();
    let schedules = schedules(alloc, kernels, table)?;
    let made = netlists(alloc, kernels, table, schedules.as_slice())?;
    let times = times_of(alloc, schedules)?;
    let links = links_of(alloc, project, times.as_slice())?;
    Ok(ProjectNetlists {
        parts: made.parts,
        inners: made.inners.into_vec(),
        links,
    })
}
