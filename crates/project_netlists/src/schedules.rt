// The least schedules of a project's kernels, and their times.
ghost use Rattle.std.specs.Prelude.{◌≡◌, ◌≤◌, length, IfOk, IfErr};
ghost use Rattle.kernel_netlist.specs.Scheduled.{IsBestSchedule};
ghost use Rattle.project_netlists.specs.Scheduled.{AreBestSchedules, all_times};
ghost use Rattle.project_netlists.specs.Refused.{MayLackSchedule, MayBeUnscheduled};

use crate::NetlistsError;
use kernel_schedule::{Schedule, ScheduleError, best_schedule};
use latency_table::Table;
use mx_base::{List, NoMemory};
use offset_edges::EdgeError;
use std::alloc::Global;
use stream_graph::Kernel;

// The least schedule of the kernel of this number.
fn schedule_of(
    alloc: Global,
    number: u32,
    kernel: &Kernel,
    table: &Table,
) -> Result<Schedule, NetlistsError>
    ensures best { IfOk result (IsBestSchedule table.now kernel.now.nodes) }
    ensures refused { IfErr result (MayBeUnscheduled table.now kernel.now number) }
{
    match best_schedule(alloc, kernel, table) {
        Ok(schedule) => Ok(schedule),
        Err(ScheduleError::Edges(EdgeError::NoMemory)) => Err(NetlistsError::NoMemory),
        Err(error) => Err(NetlistsError::Schedule(number, error)),
    }
}

/// The least schedule of each kernel, in their order. The error is that of the first kernel that
/// has none.
pub(crate) fn schedules(
    alloc: Global,
    kernels: &[Kernel],
    table: &Table,
) -> Result<List<Schedule>, NetlistsError>
    requires few { length kernels.now ≤ 64 }
    ensures best { IfOk result (AreBestSchedules table.now kernels.now) }
    ensures refused { IfErr result (MayLackSchedule table.now kernels.now) }
{
    let mut all = List::new(alloc);
    for (number, kernel) in kernels.iter().enumerate() {
        all.push(schedule_of(alloc, number as u32, kernel, table)?)?;
    }
    Ok(all)
}

/// The times of schedules, a list for each.
pub(crate) fn times_of(
    alloc: Global,
    schedules: List<Schedule>,
) -> Result<List<List<i64>>, NoMemory>
    ensures { IfOk result (λ times. times ≡ all_times schedules) }
{
    let mut times = List::new(alloc);
    for schedule in schedules.into_vec() {
        let answer = schedule.answer;
        times.push(answer.times)?;
    }
    Ok(times)
}
