// The part of a report that is written of a kernel.
ghost use Rattle.std.specs.Prelude.{◌≡◌, ◌<◌, ◌≤◌, ◌^◌, ℕ, ◌≤ℤ◌, pos, length, take, IfOk};
ghost use Rattle.offset_edges.specs.Edges.{edges_of};
ghost use Rattle.cycle_find.specs.Constraints.{numbers_of};
ghost use Rattle.schedule_problem.specs.Flow.{cost_of};
ghost use Rattle.kernel_schedule.specs.Beginning.{BeginsAtZero};
ghost use Rattle.kernel_schedule.specs.Schedules.{IsLeast};
ghost use Rattle.kernel_report.specs.Judging.{IsShown};
ghost use Rattle.kernel_report.specs.Parts.{IsPartOf};

use kernel_schedule::Schedule;
use latency_table::Table;
use mx_base::{List, NoMemory, Text};
use schedule_report::ReportKernel;
use std::alloc::Global;
use stream_graph::Kernel;

/// What a report says of a kernel's least schedule, whose times cost so many bits, below 2^63, and
/// are at most 2^46 and begin at 0. The part shows that its bits are the fewest, so that `judge` finds it good, and its times begin at
/// 0, too. The only error is want of memory.
pub fn part_of(
    alloc: Global,
    kernel: &Kernel,
    table: &Table,
    schedule: &Schedule,
    bits: u64,
) -> Result<ReportKernel, NoMemory>
    requires least { IsLeast table.now kernel.now.nodes schedule.now }
    requires most { (v : ℕ) → numbers_of schedule.now.answer.times v ≤ℤ pos (2 ^ 46) }
    requires bits { pos bits ≡ cost_of schedule.now.problem (numbers_of schedule.now.answer.times) }
    requires small { bits < 2 ^ 63 }
    requires begins { BeginsAtZero (edges_of kernel.now.nodes) (length kernel.now.nodes)
        (numbers_of schedule.now.answer.times) }
    ensures part { IfOk result (IsPartOf kernel.now schedule.now) }
    ensures shown { IfOk result (IsShown table.now kernel.now) }
    ensures times { IfOk result (λ part. (v : ℕ) → v < length kernel.now.nodes
        → numbers_of part.times v ≡ numbers_of schedule.now.answer.times v) }
    ensures begins { IfOk result (λ part. BeginsAtZero (edges_of kernel.now.nodes)
        (length kernel.now.nodes) (numbers_of part.times)) }
{
    let nodes = kernel.count();
    Ok(ReportKernel {
        name: Text::from_vec(kernel.name().to_vec(alloc)?),
        nodes,
        edges: (schedule.problem.arcs.list.len() / 2) as u32,
        bits,
        times: first_times(alloc, schedule, nodes as usize)?,
        flow: List::from_vec(schedule.answer.flow.as_slice().to_vec(alloc)?),
    })
}

// The times of the first nodes of a schedule's problem.
fn first_times(alloc: Global, schedule: &Schedule, count: usize) -> Result<List<i64>, NoMemory>
    requires { count ≤ length schedule.now.answer.times }
    ensures { IfOk result (λ times. times ≡ take count schedule.now.answer.times) }
{
    let times = schedule.answer.times.as_slice();
    Ok(List::from_vec(times[..count].to_vec(alloc)?))
}
