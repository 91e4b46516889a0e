// The law, the contract of a function that does nothing.
ghost use Rattle.project_rtl.specs.Laws.{DesignOfProject};

use project_on_time::project_runs_on_time;
use project_rules::{project_is_accepted, refinements_keep_rules};
use project_runs::project_runs;
use project_sizes::project_is_sized;

/// A FIFO for each stream of the host and for each link, modules that refine the kernels of a
/// project, and the top module that joins them are the design of the project, where the ports of
/// the modules are their first nets, and the links and starts are those that the project has at the
/// times of the modules: it keeps all rules of designs, it runs as the stream equations, its words
/// leave in time, and it has and stores nothing else.
pub fn design_of_project()
    ensures { DesignOfProject }
{
    refinements_keep_rules();
    project_is_accepted();
    project_runs();
    project_runs_on_time();
    project_is_sized();
}
