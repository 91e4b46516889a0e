// The law, the contract of a function that does nothing.
ghost use Rattle.project_rtl.specs.Laws.{ProjectRuns};

use rtl_ir::flat_by_parts;

/// The design of a project with modules that refine its kernels, a FIFO for each stream of the host
/// and for each link, and the top module that joins them runs as the stream equations, whatever
/// waits, is refused or held, and however deep the links are.
pub fn project_runs()
    ensures { ProjectRuns }
{
    flat_by_parts();
}
