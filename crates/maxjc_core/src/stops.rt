// What errors of a project and of a report on it stop with.
ghost use Rattle.std.specs.Prelude.{◌≡◌, ◌<◌, Some, IfOk, length, slice_get};
ghost use Rattle.std.specs.Option.{option_map};
ghost use Rattle.project_netlists.specs.Lines.{IsOfThese};
ghost use Rattle.stream_graph.specs.declared.kernel.Kernel.{Kernel};
ghost use Rattle.maxjc_core.specs.CompileCauses.{netlists_cause};
ghost use Rattle.maxjc_core.specs.ErrorCauses.{table_cause, project_cause, report_cause, cause_told, IfCause};
ghost use Rattle.maxjc_core.specs.CompileStops.{IfRefused};

use crate::refusal::Refusal;
use crate::stop::Stop;
use latency_table::TableError;
use manager_links::Project;
use mx_base::{NoMemory, Text};
use project_build::ProjectError;
use project_check::CheckError;
use project_netlists::NetlistsError;
use std::alloc::Global;
use stream_graph::Kernel;

/// What a table that is refused stops with.
pub fn table_stop<'a>(error: TableError) -> Stop<'a>
    ensures cause { IfRefused result (λ cause. table_cause error ≡ Some cause) }
    ensures no_read { result ≡ Stop.ReadFault → ⊥ }
{
    match error {
        TableError::NoMemory => Stop::NoMemory,
        error => Stop::Refused(Refusal::Table(error)),
    }
}

/// What a source that builds no project stops with.
pub fn project_stop<'a>(error: ProjectError) -> Stop<'a>
    ensures cause { IfRefused result (λ cause. project_cause error ≡ Some cause) }
    ensures no_read { result ≡ Stop.ReadFault → ⊥ }
{
    match error {
        ProjectError::NoMemory => Stop::NoMemory,
        error => Stop::Refused(Refusal::Project(error)),
    }
}

/// What a report that is refused stops with.
pub fn report_stop<'a>(error: CheckError) -> Stop<'a>
    ensures cause { IfRefused result (λ cause. report_cause error ≡ Some cause) }
    ensures no_read { result ≡ Stop.ReadFault → ⊥ }
{
    match error {
        CheckError::NoMemory => Stop::NoMemory,
        error => Stop::Refused(Refusal::Report(error)),
    }
}

// The name of a kernel.
fn name_of(alloc: Global, kernel: &Kernel) -> Result<Text, NoMemory>
    ensures { IfOk result (λ name. name ≡ kernel.now.name) }
{
    Ok(Text::from_vec(kernel.name().to_vec(alloc)?))
}

// The name of the kernel of this number.
fn name_at(alloc: Global, kernels: &[Kernel], number: u32) -> Result<Text, NoMemory>
    requires { number < length kernels.now }
    ensures { IfOk result (λ name.
        option_map (λ (kernel : Kernel). kernel.name) (slice_get kernels.now number) ≡ Some name) }
{
    name_of(alloc, &kernels[number as usize])
}

/// The refusal of a project whose kernels have no modules, or whose links are too deep.
pub fn netlists_refusal<'a>(
    alloc: Global,
    project: &Project,
    error: NetlistsError,
) -> Result<Refusal<'a>, NoMemory>
    requires { IsOfThese project.now.kernels error }
    ensures { IfOk result (λ refusal. IfCause (cause_told refusal)
        (λ cause. netlists_cause project.now.kernels error ≡ Some cause)) }
{
    match error {
        NetlistsError::Schedule(number, error) => {
            let name = name_at(alloc, project.kernels(), number)?;
            Ok(Refusal::Schedule(name, error))
        }
        NetlistsError::TooManyBits(number, bits) => {
            let name = name_at(alloc, project.kernels(), number)?;
            Ok(Refusal::TooManyBits(name, bits))
        }
        NetlistsError::LinkTooDeep(link, words) => Ok(Refusal::LinkTooDeep(link, words)),
        NetlistsError::NoMemory => Err(NoMemory),
    }
}
