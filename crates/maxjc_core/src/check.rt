// Reads a project and a report, and judges the report. No file is changed here.
ghost use Rattle.std.specs.Prelude.{◌≡◌, ◌<◌, ◌≤◌, ◌^◌, ◌⊎◌, Err, IfOk, IfErr, length, IsSome};
ghost use Rattle.std.specs.List.{flat_map};
ghost use Rattle.mx_base.specs.Counts.{Rose};
ghost use Rattle.mx_base.specs.Files.{Lacks};
ghost use Rattle.maxjc_core.specs.CompileCauses.{file_limit};
ghost use Rattle.maxjc_core.specs.CheckCauses.{IsOfCheck, IsInputTooLarge, CheckStands, LacksChecked};
ghost use Rattle.maxjc_core.specs.Checking.{Checks, IsChecked, least_line};
ghost use Rattle.maxjc_core.specs.CheckStops.{AreInputs};
ghost use Rattle.maxjc_core.specs.NamedCommand.{check_told};
ghost use Rattle.maxjc_core.specs.CompileStops.{IfRefused};

use crate::command::Check;
use crate::files::{FILE_LIMIT, read_file};
use crate::project::{ProjectBytes, read_project};
use crate::shown::show_report;
use crate::stop::Stop;
use crate::summary::least_lines;
use mx_base::Files;
use schedule_report::ReportKernel;
use std::alloc::Global;

/// The bytes of a project and of a report.
#[derive(Drop)]
pub struct Inputs {
    pub project: ProjectBytes,
    pub report: Vec<u8>,
}

// The lines that are said of the parts of a report. Apart from `check_bytes`, which owns the project.
fn said_of<'a>(alloc: Global, parts: &[ReportKernel]) -> Result<Vec<u8>, Stop<'a>>
    ensures said { IfOk result (λ line. line.items ≡ flat_map least_line parts.now) }
    ensures no_memory { IfErr result (λ stop. stop ≡ Stop.NoMemory) }
{
    Ok(least_lines(alloc, parts)?)
}

// What is said of the bytes of a source, of a latency table and of a report, or why they are
// refused.
fn check_bytes<'a>(
    alloc: Global,
    source: &[u8],
    table: &[u8],
    report: &[u8],
) -> Result<Vec<u8>, Stop<'a>>
    requires { length source.now < 2 ^ 32 }
    ensures checked { IfOk result (λ line. Checks source.now table.now report.now line.items) }
    ensures refused { IfErr result (λ stop. IfRefused stop (IsOfCheck source.now table.now report.now)) }
    ensures no_read { result ≡ Err Stop.ReadFault → ⊥ }
{
    match show_report(alloc, source, table, report) {
        Ok(shown) => said_of(alloc, shown.report.kernels.as_slice()),
        Err(stop) => Err(stop),
    }
}

/// Reads a project and then a report, each whole.
pub fn read_inputs<'a, F: Files>(
    alloc: Global,
    files: &mut F,
    names: Check<'a>,
) -> Result<Inputs, Stop<'a>>
    ensures same { F.held files.new ≡ F.held files.old }
    ensures quiet { (result ≡ Err Stop.ReadFault → ⊥) → F.read_faults files.new ≡ F.read_faults files.old }
    ensures write_quiet { F.write_faults files.new ≡ F.write_faults files.old }
    ensures fault { result ≡ Err Stop.ReadFault
        → Rose (F.read_faults files.old) (F.read_faults files.new)
        ⊎ LacksChecked (check_told names.entry) (F.held files.old) }
    ensures missing { LacksChecked (check_told names.entry) (F.held files.old)
        → (result ≡ Err Stop.ReadFault) ⊎ (result ≡ Err Stop.NoMemory) }
    ensures missing_quiet { Lacks (F.held files.old) names.entry.source.now → F.read_faults files.new ≡ F.read_faults files.old }
    ensures read { IfOk result (λ i. IsSome (F.held files.old)
        → AreInputs (check_told names.entry) (F.held files.old) i.project.source.items i.project.table.items i.report.items) }
    ensures fits { IfOk result (λ i. length i.project.source.items ≤ file_limit) }
    ensures refused { IfErr result (λ stop. IfRefused stop (λ cause. IsSome (F.held files.old)
        → IsInputTooLarge (check_told names.entry) (F.held files.old) cause)) }
{
    let project = match read_project(alloc, files, names.source, names.table) {
        Ok(project) => project,
        Err(stop) => return Err(stop),
    };
    match read_file(alloc, files, names.report, FILE_LIMIT) {
        Ok(report) => Ok(Inputs { project, report }),
        Err(stop) => Err(stop),
    }
}

/// Reads a project and a report, and judges the report: the lines that are said where it is shown. It
/// changes no file.
pub fn check<'a, F: Files>(
    alloc: Global,
    files: &mut F,
    names: Check<'a>,
) -> Result<Vec<u8>, Stop<'a>>
    ensures same { F.held files.new ≡ F.held files.old }
    ensures quiet { (result ≡ Err Stop.ReadFault → ⊥) → F.read_faults files.new ≡ F.read_faults files.old }
    ensures write_quiet { F.write_faults files.new ≡ F.write_faults files.old }

    // A read fails only where its count rose or the file isn't held, and a file that isn't held is no fault.
    ensures fault { result ≡ Err Stop.ReadFault
        → Rose (F.read_faults files.old) (F.read_faults files.new)
        ⊎ LacksChecked (check_told names.entry) (F.held files.old) }
    ensures missing { LacksChecked (check_told names.entry) (F.held files.old)
        → (result ≡ Err Stop.ReadFault) ⊎ (result ≡ Err Stop.NoMemory) }
    ensures missing_quiet { Lacks (F.held files.old) names.entry.source.now → F.read_faults files.new ≡ F.read_faults files.old }

    ensures checked { IfOk result (λ line. IsSome (F.held files.old)
        → IsChecked (check_told names.entry) (F.held files.old) line.items) }
    ensures refused { IfErr result (λ stop. IfRefused stop (λ cause. IsSome (F.held files.old)
        → CheckStands (check_told names.entry) (F.held files.old) cause)) }
{
    match read_inputs(alloc, files, names) {
        Ok(inputs) => check_bytes(
            alloc,
            inputs.project.source.as_slice(),
            inputs.project.table.as_slice(),
            inputs.report.as_slice(),
        ),
        Err(stop) => Err(stop),
    }
}
