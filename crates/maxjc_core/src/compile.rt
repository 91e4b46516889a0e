// Reads a project and compiles it. No file is changed here.
ghost use Rattle.std.specs.Prelude.{◌≡◌, ◌<◌, ◌^◌, ◌⊎◌, List, ℕ, Err, IfOk, IfErr, length, All};
ghost use Rattle.mx_base.specs.Counts.{Rose};
ghost use Rattle.mx_base.specs.Files.{Lacks};
ghost use Rattle.schedule_report.specs.Reports.{IsKernelPart, report_text};
ghost use Rattle.project_netlists.specs.Netlists.{HasPortName};
ghost use Rattle.maxjc_core.specs.CompileCauses.{IsMissing, IsOfFiles};
ghost use Rattle.maxjc_core.specs.Compiling.{summary_of, Compiles};
ghost use Rattle.maxjc_core.specs.Projects.{IsProjectOf};
ghost use Rattle.maxjc_core.specs.CompileStops.{IfRefused, Answers};
ghost use Rattle.maxjc_core.specs.NamedCommand.{names_told};

use crate::command::Compile;
use crate::project::{make_project, read_project};
use crate::stop::Stop;
use crate::stops::netlists_refusal;
use crate::summary::summary_of;
use latency_table::Table;
use manager_links::Project;
use mx_base::{Files, List, NoMemory};
use project_check::all_shown_are_least;
use project_verilog::{ProjectText, project_text};
use schedule_report::{Report, ReportKernel};
use std::alloc::Global;

/// The text of a project, the report on the schedules of its kernels, and the lines that sum both up.
#[derive(Drop)]
pub struct Compiled {
    pub text: Vec<u8>,
    pub report: Vec<u8>,
    pub summary: Vec<u8>,
}

// The bytes of a report of these parts.
fn report_of(alloc: Global, parts: List<ReportKernel>) -> Result<Vec<u8>, NoMemory>
    requires { All IsKernelPart parts }
    ensures { IfOk result (λ bytes. bytes.items ≡ report_text (record { kernels = parts })) }
{
    let report = Report { kernels: parts };
    let mut bytes = Vec::new(alloc);
    report.print(&mut bytes)?;
    Ok(bytes)
}

// The text of a project, with the report on it and its summary.
fn with_report(alloc: Global, made: ProjectText) -> Result<Compiled, NoMemory>
    requires { All IsKernelPart made.parts }
    ensures text { IfOk result (λ c. c.text.items ≡ made.text.items) }
    ensures report { IfOk result (λ c. c.report.items ≡ report_text (record { kernels = made.parts })) }
    ensures summary { IfOk result (λ c. c.summary.items ≡ summary_of made.parts made.links.links) }
{
    let summary = summary_of(alloc, made.parts.as_slice(), made.links.links.as_slice())?;
    let report = report_of(alloc, made.parts)?;
    Ok(Compiled {
        text: made.text,
        report,
        summary,
    })
}

// What is made of a project by a latency table, or why it has no text.
fn compile_project<'a>(
    alloc: Global,
    project: &Project,
    latencies: &Table,
) -> Result<Compiled, Stop<'a>>
    requires names { All HasPortName project.now.kernels }
    ensures made { (source table : List ℕ) → IsProjectOf source table project.now latencies.now
        → IfOk result (λ c. Compiles source table c.text.items c.report.items c.summary.items) }
    ensures refused { (source table : List ℕ) → IsProjectOf source table project.now latencies.now
        → IfErr result (λ stop. IfRefused stop (IsOfFiles source table)) }
    ensures no_read { result ≡ Err Stop.ReadFault → ⊥ }
{
    all_shown_are_least(project.kernels(), latencies);
    match project_text(alloc, project, latencies) {
        Ok(made) => Ok(with_report(alloc, made)?),
        Err(error) => Err(Stop::Refused(netlists_refusal(alloc, project, error)?)),
    }
}

// What is made of the bytes of a source and of a latency table, or why they are refused.
fn build<'a>(alloc: Global, source: &[u8], table: &[u8]) -> Result<Compiled, Stop<'a>>
    requires { length source.now < 2 ^ 32 }
    ensures made { IfOk result (λ c. Compiles source.now table.now c.text.items c.report.items c.summary.items) }
    ensures refused { IfErr result (λ stop. IfRefused stop (IsOfFiles source.now table.now)) }
    ensures no_read { result ≡ Err Stop.ReadFault → ⊥ }
{
    match make_project(alloc, source, table) {
        Ok(made) => compile_project(alloc, &made.project, &made.latencies),
        Err(stop) => Err(stop),
    }
}

/// Reads a project and compiles it. It changes no file.
pub fn compile<'a, F: Files>(
    alloc: Global,
    files: &mut F,
    names: Compile<'a>,
) -> Result<Compiled, Stop<'a>>
    ensures same { F.held files.new ≡ F.held files.old }
    ensures quiet { (result ≡ Err Stop.ReadFault → ⊥) → F.read_faults files.new ≡ F.read_faults files.old }
    ensures write_quiet { F.write_faults files.new ≡ F.write_faults files.old }

    // A read fails only where its count rose or the file isn't held, and a file that isn't held is no fault.
    ensures fault { result ≡ Err Stop.ReadFault
        → Rose (F.read_faults files.old) (F.read_faults files.new)
        ⊎ IsMissing names.entry.source.now names.entry.table.now (F.held files.old) }
    ensures missing { IsMissing names.entry.source.now names.entry.table.now (F.held files.old) → (result ≡ Err Stop.ReadFault) ⊎ (result ≡ Err Stop.NoMemory) }
    ensures missing_quiet { Lacks (F.held files.old) names.entry.source.now → F.read_faults files.new ≡ F.read_faults files.old }

    ensures answers { Answers (names_told names.entry) (F.held files.old) result }
{
    match read_project(alloc, files, names.source, names.table) {
        Ok(project) => build(alloc, project.source.as_slice(), project.table.as_slice()),
        Err(stop) => Err(stop),
    }
}
