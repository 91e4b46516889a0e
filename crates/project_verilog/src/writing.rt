// The text of a project.
ghost use Rattle.std.specs.Prelude.{◌≡◌, ℤ, List as Items, length, All, IfOk, IfErr};
ghost use Rattle.rtl_ir.specs.Rules.{IsAccepted};
ghost use Rattle.rtl_reading.specs.Reads.{IsPortsFirst, ArePortsFirst};
ghost use Rattle.manager_links.specs.Links.{AreLinksOf};
ghost use Rattle.project_netlists.specs.Lines.{IsOfThese};
ghost use Rattle.project_netlists.specs.Netlists.{HasPortName};
ghost use Rattle.project_netlists.specs.Refused.{IsRefused};
ghost use Rattle.project_rtl.specs.Designs.{IsDesignOf};
ghost use Rattle.project_rtl.specs.Kept.{AllRefine};
ghost use Rattle.project_design.specs.Building.{AreMade};
ghost use Rattle.project_verilog.specs.Texts.{IsPrinted, IsTextOf};

use crate::design_of_project;
use latency_table::Table;
use manager_links::{Links, Project};
use mx_base::{List, NoMemory};
use project_design::design;
use project_netlists::{NetlistsError, project_netlists};
use rtl_ir::{Design, Module};
use schedule_report::ReportKernel;
use std::alloc::Global;
use verilog_print::print;

/// The Verilog text of a project (IEEE 1364-2005), and what a report says of the project: of each
/// kernel, in the order of the project, the times of its schedule, the bits that the schedule's
/// FIFOs hold, and a flow that shows that these are the fewest; and the starts of the kernels, with
/// the links between them, each with its depth in words.
#[derive(Drop)]
pub struct ProjectText {
    pub text: Vec<u8>,
    pub parts: List<ReportKernel>,
    pub links: Links,
}

// The design of a project whose kernels have these modules, with these links.
fn design_of(
    alloc: Global,
    project: &Project,
    links: &Links,
    inners: Vec<Module>,
) -> Result<Design, NoMemory>
    requires links { AreMade project.now links.now }
    requires kernels { length inners.items ≡ length project.now.kernels }
    ensures { (times : Items (Items ℤ)) → AllRefine project.now times inners.items
        → All IsPortsFirst inners.items → AreLinksOf project.now times links.now
        → IfOk result (IsDesignOf project.now links.now inners.items times) }
{
    design_of_project();
    design(alloc, project, links, inners)
}

// The text of a design.
fn text_of(alloc: Global, design: &Design) -> Result<Vec<u8>, NoMemory>
    requires accepted { IsAccepted design.now }
    requires ports_first { ArePortsFirst design.now }
    ensures { IfOk result (λ text. IsPrinted design.now text.items) }
{
    let mut text = Vec::new(alloc);
    print(alloc, design, &mut text)?;
    Ok(text)
}

/// The text of the design of a project, at the least schedules of its kernels by a latency table,
/// with what a report says of these schedules and of the links. The FIFOs of each schedule hold at
/// most 2^28 bits, and a link at most 65,536 words. Each kernel's name is a letter and then letters,
/// digits and `_`.
///
/// Errors, of which the first that stands is answered: `Schedule` of the first kernel that has no
/// schedule; `TooManyBits` of the first kernel each of whose schedules has FIFOs of more than 2^28
/// bits, with the fewest that they may hold; `LinkTooDeep` of the first link that would hold more
/// than 65,536 words. `NoMemory` says nothing.
pub fn project_text(
    alloc: Global,
    project: &Project,
    table: &Table,
) -> Result<ProjectText, NetlistsError>
    requires names { All HasPortName project.now.kernels }
    ensures made { IfOk result (IsTextOf table.now project.now) }
    ensures refused { IfErr result (IsRefused table.now project.now) }
    ensures of { IfErr result (IsOfThese project.now.kernels) }
{
    let made = project_netlists(alloc, project, table)?;
    let links = made.links;
    let design = design_of(alloc, project, &links, made.inners)?;
    let text = text_of(alloc, &design)?;
    Ok(ProjectText {
        text,
        parts: made.parts,
        links,
    })
}
