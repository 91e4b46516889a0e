// The kernels of a plan, and their project.
ghost use Rattle.std.specs.Prelude.{◌≡◌, List, All, IfOk, IfErr};
ghost use Rattle.kernel_meaning.specs.SoundPlans.{IsAdded, IsKernelClass};
ghost use Rattle.maxj_syntax.specs.Ranges.{AreInRange};
ghost use Rattle.maxj_syntax.specs.Tree.{ClassTree, ProgramIs};
ghost use Rattle.project_build.specs.Building.{IsKernelFor, AreKernelsFor, IsProjectOf};
ghost use Rattle.project_build.specs.Causes.{MayLackKernel, MayLackOne, MayLackProject};
ghost use Rattle.project_build.specs.Errors.{of_plan, of_run, of_graph, of_links};

use crate::ProjectError;
use kernel_eval::{BuildError, build_kernel, eval_manager};
use kernel_meaning::{EvalError, Made};
use manager_links::{LinkError, Project};
use maxj_syntax::Program;
use mx_base::Text;
use std::alloc::Global;
use stream_graph::{GraphError, Kernel};

/// The project of a source: what its manager builds, or without a manager its one kernel, whose
/// ports are joined to streams of the CPU.
///
/// A source is refused by the first of these that stands: `Plan`, where the manager's run is
/// refused; of each kernel in the order of the plan `Kernel`, where its run is refused, and then
/// `Graph`, where what the run makes is no kernel; `Links`, the first rule of joins that the plan
/// breaks. `NoMemory` alone says nothing.
pub fn build_project(alloc: Global, program: &Program<'_>) -> Result<Project, ProjectError>
    requires read { (classes : List ClassTree) × ProgramIs program.now classes }
    requires numbers { AreInRange program.now.tree }
    ensures ok { (classes : List ClassTree) → ProgramIs program.now classes
        → IfOk result (IsProjectOf classes) }
    ensures err { (classes : List ClassTree) → ProgramIs program.now classes
        → IfErr result (MayLackProject classes) }
{
    let plan = match eval_manager(alloc, program) {
        Ok(plan) => plan,
        Err(error) => return Err(plan_refused(error)),
    };
    let kernels = build_kernels(alloc, program, plan.kernels.as_slice())?;
    match Project::join(alloc, kernels, plan) {
        Ok(project) => Ok(project),
        Err(error) => Err(links_refused(error)),
    }
}

// The kernels that a plan adds, or why the first of them that can't be built can't.
fn build_kernels(
    alloc: Global,
    program: &Program<'_>,
    mades: &[Made],
) -> Result<Vec<Kernel>, ProjectError>
    requires read { (classes : List ClassTree) × ProgramIs program.now classes }
    requires numbers { AreInRange program.now.tree }
    requires sound { (classes : List ClassTree) → ProgramIs program.now classes
        → All (IsAdded (IsKernelClass classes)) mades.now }
    ensures ok { (classes : List ClassTree) → ProgramIs program.now classes
        → IfOk result (λ kernels. AreKernelsFor classes mades.now kernels.items) }
    ensures err { (classes : List ClassTree) → ProgramIs program.now classes
        → IfErr result (MayLackOne classes mades.now) }
{
    let mut kernels = Vec::new(alloc);
    for made in mades {
        let kernel = build_one(alloc, program, made)?;
        kernels.push(kernel)?;
    }
    Ok(kernels)
}

// The kernel that a plan adds, or why it can't be built.
fn build_one(alloc: Global, program: &Program<'_>, made: &Made) -> Result<Kernel, ProjectError>
    requires read { (classes : List ClassTree) × ProgramIs program.now classes }
    requires numbers { AreInRange program.now.tree }
    requires sound { (classes : List ClassTree) → ProgramIs program.now classes
        → IsAdded (IsKernelClass classes) made.now }
    ensures ok { (classes : List ClassTree) → ProgramIs program.now classes
        → IfOk result (IsKernelFor classes made.now) }
    ensures err { (classes : List ClassTree) → ProgramIs program.now classes
        → IfErr result (MayLackKernel classes made.now) }
{
    let name = made.name.copy(alloc)?;
    match build_kernel(alloc, program, made.class, made.args.as_slice(), name) {
        Ok(kernel) => Ok(kernel),
        Err(BuildError::Eval(error)) => Err(run_refused(error)),
        Err(BuildError::Graph(error)) => Err(graph_refused(made.name.copy(alloc)?, error)),
    }
}

// The refusal of what a source builds.
fn plan_refused(error: EvalError) -> ProjectError
    ensures { result ≡ of_plan error }
{
    match error {
        EvalError::NoMemory => ProjectError::NoMemory,
        error => ProjectError::Plan(error),
    }
}

// The refusal of a kernel's run.
fn run_refused(error: EvalError) -> ProjectError
    ensures { result ≡ of_run error }
{
    match error {
        EvalError::NoMemory => ProjectError::NoMemory,
        error => ProjectError::Kernel(error),
    }
}

// The refusal of what the run of the kernel of this name makes.
fn graph_refused(name: Text, error: GraphError) -> ProjectError
    ensures { result ≡ of_graph name error }
{
    match error {
        GraphError::NoMemory => ProjectError::NoMemory,
        error => ProjectError::Graph(name, error),
    }
}

// The refusal of a plan's joins.
fn links_refused(error: LinkError) -> ProjectError
    ensures { result ≡ of_links error }
{
    match error {
        LinkError::NoMemory => ProjectError::NoMemory,
        error => ProjectError::Links(error),
    }
}
