// The part that is written of a kernel's best schedule.
ghost use Rattle.std.specs.Prelude.{◌≡◌, IfOk, IfSome};
ghost use Rattle.schedule_problem.specs.Optimum.{IsProblem};
ghost use Rattle.offset_edges.specs.Problems.{problem_of};
ghost use Rattle.schedule_report.specs.Reports.{IsKernelPart};

use kernel_report::part_of;
use kernel_schedule::{Schedule, best_schedule};
use latency_table::Table;
use mx_base::NoMemory;
use schedule_problem::{Problem, cost};
use schedule_report::ReportKernel;
use std::alloc::Global;
use stream_graph::Kernel;

/// The part that is written of the kernel's best schedule, or `None` where it has none.
pub fn best_part(
    alloc: Global,
    kernel: &Kernel,
    table: &Table,
    problem: &Problem,
) -> Result<Option<ReportKernel>, NoMemory>
    requires problem { problem.now ≡ problem_of table.now kernel.now.nodes }
    requires solvable { IsProblem problem.now }
    ensures { IfOk result (λ part. IfSome part IsKernelPart) }
{
    let Ok(schedule) = best_schedule(alloc, kernel, table) else {
        return Ok(None);
    };
    let bits = cost(problem, schedule.answer.times.as_slice());
    match u64::try_from(bits) {
        Ok(bits) if bits < 1 << 63 => Ok(Some(part_of(alloc, kernel, table, &schedule, bits)?)),
        _ => Ok(None),
    }
}
