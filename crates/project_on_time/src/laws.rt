// The law, the contract of a function that does nothing.
ghost use Rattle.project_rtl.specs.Laws.{ProjectRunsOnTime};

use rtl_ir::flat_by_parts;

/// In each balanced run of the design of a project, over the links and starts that it has at the
/// times of its kernels' modules, the words leave in time, and the design is done in time, whatever
/// waits, is refused or held in the edges between.
pub fn project_runs_on_time()
    ensures { ProjectRunsOnTime }
{
    flat_by_parts();
}
