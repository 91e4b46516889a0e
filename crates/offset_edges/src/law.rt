// The problem of a kernel is the one of its schedules.
ghost use Rattle.offset_edges.specs.Schedules.{SolutionsAreSchedules, SchedulesAreSolutions};

use latency_table::Table;
use stream_graph::Kernel;

/// Times that solve the problem of a kernel make a legal schedule of it, whose FIFOs hold no more
/// bits than the times cost. The function does nothing: its contract is the law.
pub fn solutions_are_schedules(kernel: &Kernel, table: &Table)
    ensures { SolutionsAreSchedules table.now kernel.now.nodes }
{
    let _kernel = kernel;
    let _table = table;
}

/// Each legal schedule of a kernel is part of times that solve its problem and cost as much as the
/// schedule's FIFOs hold. The function does nothing: its contract is the law.
pub fn schedules_are_solutions(kernel: &Kernel, table: &Table)
    ensures { SchedulesAreSolutions table.now kernel.now.nodes }
{
    let _kernel = kernel;
    let _table = table;
}
