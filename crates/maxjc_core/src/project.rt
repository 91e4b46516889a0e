// Reads the files of a project, and builds it.
ghost use Rattle.std.specs.Prelude.{◌≡◌, ◌<◌, ◌≤◌, ◌^◌, ◌⊎◌, List, ℕ, Err, IfOk, IfErr, length, IsSome};
ghost use Rattle.mx_base.specs.Counts.{Rose};
ghost use Rattle.mx_base.specs.Files.{Lacks};
ghost use Rattle.maxj_syntax.specs.Outcomes.{FailsToRead, IsTheSource};
ghost use Rattle.maxj_syntax.specs.Ranges.{AreInRange};
ghost use Rattle.maxj_syntax.specs.Tree.{ClassTree, ProgramIs};
ghost use Rattle.maxjc_core.specs.CompileCauses.{file_limit, IsMissing, IsTooLarge};
ghost use Rattle.maxjc_core.specs.Projects.{IsProjectOf, MakesNoProject};
ghost use Rattle.maxjc_core.specs.CompileStops.{IfRefused, AreBytes};

use crate::files::{FILE_LIMIT, read_file};
use crate::refusal::Refusal;
use crate::stop::Stop;
use crate::stops::{project_stop, table_stop};
use latency_table::Table;
use manager_links::Project;
use maxj_syntax::{Program, SourceError, parse};
use mx_base::{Files, Text};
use project_build::build_project;
use std::alloc::Global;

/// The bytes of a source and of a latency table.
#[derive(Drop)]
pub struct ProjectBytes {
    pub source: Vec<u8>,
    pub table: Vec<u8>,
}

/// The project of a source, and its latency table.
#[derive(Drop)]
pub struct Made {
    pub project: Project,
    pub latencies: Table,
}

/// Reads a source and then a latency table, each whole.
pub fn read_project<'a, F: Files>(
    alloc: Global,
    files: &mut F,
    source_name: &'a Text,
    table_name: &'a Text,
) -> Result<ProjectBytes, Stop<'a>>
    ensures same { F.held files.new ≡ F.held files.old }
    ensures quiet { (result ≡ Err Stop.ReadFault → ⊥) → F.read_faults files.new ≡ F.read_faults files.old }
    ensures write_quiet { F.write_faults files.new ≡ F.write_faults files.old }

    // A read fails only where its count rose or the file isn't held, and a file that isn't held is no fault.
    ensures fault { result ≡ Err Stop.ReadFault
        → Rose (F.read_faults files.old) (F.read_faults files.new)
        ⊎ IsMissing source_name.entry.now table_name.entry.now (F.held files.old) }
    ensures missing { IsMissing source_name.entry.now table_name.entry.now (F.held files.old)
        → (result ≡ Err Stop.ReadFault) ⊎ (result ≡ Err Stop.NoMemory) }
    ensures missing_quiet { Lacks (F.held files.old) source_name.entry.now → F.read_faults files.new ≡ F.read_faults files.old }

    ensures read { IfOk result (λ p. IsSome (F.held files.old)
        → AreBytes source_name.entry.now table_name.entry.now (F.held files.old) p.source.items p.table.items) }
    ensures fits { IfOk result (λ p. length p.source.items ≤ file_limit) }
    ensures refused { IfErr result (λ stop. IfRefused stop (λ cause. IsSome (F.held files.old)
        → IsTooLarge source_name.entry.now table_name.entry.now (F.held files.old) cause)) }
{
    match read_file(alloc, files, source_name, FILE_LIMIT) {
        Ok(source) => match read_file(alloc, files, table_name, FILE_LIMIT) {
            Ok(table) => Ok(ProjectBytes { source, table }),
            Err(stop) => Err(stop),
        },
        Err(stop) => Err(stop),
    }
}

// The refusal of a source by its first fault.
fn refused<'a>(error: SourceError) -> Stop<'a>
    ensures cause { (source table : List ℕ) → FailsToRead source error → IfRefused result (MakesNoProject source table) }
    ensures no_read { result ≡ Stop.ReadFault → ⊥ }
{
    match error {
        SourceError::NoMemory => Stop::NoMemory,
        fault => Stop::Refused(Refusal::Source(fault)),
    }
}

// The project of a program, and the latency table of these bytes.
fn make<'a>(alloc: Global, program: &Program<'_>, table: &[u8]) -> Result<Made, Stop<'a>>
    requires read { (classes : List ClassTree) × ProgramIs program.now classes }
    requires numbers { AreInRange program.now.tree }
    ensures made { (source : List ℕ) → IsTheSource source program.now
        → IfOk result (λ m. IsProjectOf source table.now m.project m.latencies) }
    ensures refused { (source : List ℕ) → IsTheSource source program.now
        → IfErr result (λ stop. IfRefused stop (MakesNoProject source table.now)) }
    ensures no_read { result ≡ Err Stop.ReadFault → ⊥ }
{
    let latencies = match Table::read(alloc, table) {
        Ok(latencies) => latencies,
        Err(error) => return Err(table_stop(error)),
    };
    match build_project(alloc, program) {
        Ok(project) => Ok(Made { project, latencies }),
        Err(error) => Err(project_stop(error)),
    }
}

/// The project that the bytes of a source build, and the latencies that those of a table say, or
/// why there are none.
pub fn make_project<'a>(alloc: Global, source: &[u8], table: &[u8]) -> Result<Made, Stop<'a>>
    requires { length source.now < 2 ^ 32 }
    ensures made { IfOk result (λ m. IsProjectOf source.now table.now m.project m.latencies) }
    ensures refused { IfErr result (λ stop. IfRefused stop (MakesNoProject source.now table.now)) }
    ensures no_read { result ≡ Err Stop.ReadFault → ⊥ }
{
    match parse(alloc, source) {
        Ok(program) => make(alloc, &program, table),
        Err(error) => Err(refused(error)),
    }
}
