// Laws of parts of reports, each the contract of a function that does nothing.
ghost use Rattle.kernel_report.specs.Judging.{ShownAreLeast};

use latency_table::Table;
use offset_edges::{schedules_are_solutions, solutions_are_schedules};
use stream_graph::Kernel;

/// The times of a part that is judged good are a legal schedule of the kernel, whose FIFOs hold the
/// part's bits, and those of no legal schedule hold fewer.
pub fn shown_are_least(kernel: &Kernel, table: &Table)
    ensures { ShownAreLeast table.now kernel.now }
{
    solutions_are_schedules(kernel, table);
    schedules_are_solutions(kernel, table);
}
