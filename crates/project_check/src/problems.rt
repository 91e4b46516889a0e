// The problems of a project's kernels.
ghost use Rattle.std.specs.Prelude.{◌≡◌, All, IfOk, IfErr};
ghost use Rattle.project_check.specs.Checked.{AreProblems, HasProblem};
ghost use Rattle.project_check.specs.Refused.{MayLackProblem, IsOfProblem};
ghost use Rattle.stream_graph.specs.declared.kernel.Kernel.{Kernel as OneKernel};

use crate::CheckError;
use latency_table::Table;
use mx_base::{NoMemory, Text};
use offset_edges::{EdgeError, edges};
use schedule_problem::Problem;
use std::alloc::Global;
use stream_graph::Kernel;

/// The name of a kernel.
pub(crate) fn name_of(alloc: Global, kernel: &Kernel) -> Result<Text, NoMemory>
    ensures { IfOk result (λ name. name ≡ kernel.now.name) }
{
    Ok(Text::from_vec(kernel.name().to_vec(alloc)?))
}

// Why a report is refused where this kernel has no problem.
fn of_edges(alloc: Global, kernel: &Kernel, error: EdgeError) -> CheckError
    ensures { IsOfProblem kernel.now error result }
{
    if let EdgeError::NoMemory = error {
        return CheckError::NoMemory;
    }
    match name_of(alloc, kernel) {
        Ok(name) => CheckError::Problem(name, error),
        Err(_) => CheckError::NoMemory,
    }
}

/// The problem of schedules of each kernel. The error is that of the first kernel that has none.
pub(crate) fn problems(
    alloc: Global,
    kernels: &[Kernel],
    table: &Table,
) -> Result<Vec<Problem>, CheckError>
    ensures made { IfOk result (λ problems.
        AreProblems table.now kernels.now problems.items) }
    ensures has { IfOk result (λ _. All (HasProblem table.now) kernels.now) }
    ensures refused { IfErr result (MayLackProblem table.now kernels.now) }
{
    let mut all = Vec::new(alloc);
    for kernel in kernels {
        match edges(alloc, kernel, table) {
            Ok(problem) => all.push(problem)?,
            Err(error) => return Err(of_edges(alloc, kernel, error)),
        }
    }
    Ok(all)
}
