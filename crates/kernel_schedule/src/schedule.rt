// The best schedule of a kernel.
ghost use Rattle.std.specs.Prelude.{◌≡◌, ◌^◌, ◌≤ℤ◌, ℕ, pos, length, IfOk, OnOk, IfErr, IsErr};
ghost use Rattle.cycle_find.specs.Constraints.{IsPositiveCycle, IsSolvable, Solves, Numbers, numbers_of};
ghost use Rattle.offset_edges.specs.Edges.{edges_of};
ghost use Rattle.offset_edges.specs.Latencies.{AllTimed};
ghost use Rattle.offset_edges.specs.Problems.{problem_of};
ghost use Rattle.offset_edges.specs.Walks.{IsCausal};
ghost use Rattle.kernel_schedule.specs.Beginning.{BeginsAtZero};
ghost use Rattle.kernel_schedule.specs.Schedules.{IsSchedulable, IsLeast};
ghost use Rattle.kernel_schedule.specs.Refused.{IsRefused};

use crate::ScheduleError;
use cycle_find::Cycle;
use latency_table::Table;
use mx_base::List;
use offset_edges::{
    EdgeError, edges, latencies, schedules_are_solutions, solutions_are_schedules, uncovered_walk,
};
use schedule_flow::{BestError, best};
use schedule_problem::{Answer, Problem};
use std::alloc::Global;
use stream_graph::Kernel;

/// A schedule of a kernel: the latency of each node, in ticks and in node order; its problem, as
/// `edges` makes it; and the times and the flow that solve the problem. Of `n` nodes, node `u` has
/// its time, in ticks, at `u`, and at `n + u` the time up to which its words are kept.
#[derive(Drop)]
pub struct Schedule {
    pub latencies: List<u32>,
    pub problem: Problem,
    pub answer: Answer,
}

/// The schedule of a kernel by a latency table whose FIFOs hold the fewest bits, and of those the
/// earliest, whose times are from 0 to 2^46: 0 of nodes without edges, and the least of the others
/// is 0; with a flow that is worth these bits. Errors, of which the first that stands is answered:
/// those of `edges`, and `Uncovered` exactly where no schedule is legal.
pub fn best_schedule(
    alloc: Global,
    kernel: &Kernel,
    table: &Table,
) -> Result<Schedule, ScheduleError>
    ensures schedulable { OnOk result (IsSchedulable table.now kernel.now.nodes) }
    ensures least { IfOk result (IsLeast table.now kernel.now.nodes) }
    ensures arcs { IfOk result (λ schedule. IsSolvable schedule.problem.arcs) }
    ensures most { IfOk result (λ schedule.
        (v : ℕ) → numbers_of schedule.answer.times v ≤ℤ pos (2 ^ 46)) }
    ensures begins { IfOk result (λ schedule. BeginsAtZero (edges_of kernel.now.nodes)
        (length kernel.now.nodes) (numbers_of schedule.answer.times)) }
    ensures refused { IfErr result (IsRefused table.now kernel.now.nodes) }
{
    solutions_are_schedules(kernel, table);
    schedules_are_solutions(kernel, table);
    let latencies = match latencies(alloc, kernel, table) {
        Ok(latencies) => List::from_vec(latencies),
        Err(error) => return Err(ScheduleError::Edges(error)),
    };
    let problem = match edges(alloc, kernel, table) {
        Ok(problem) => problem,
        Err(error) => return Err(ScheduleError::Edges(error)),
    };
    match best(alloc, &problem) {
        Ok(answer) => Ok(Schedule {
            latencies,
            problem,
            answer,
        }),
        Err(BestError::Cycle(cycle)) => Err(uncovered(alloc, kernel, table, &cycle)),
        Err(BestError::NoMemory) => Err(ScheduleError::Edges(EdgeError::NoMemory)),
    }
}

// The refusal of a causal kernel whose problem nothing solves, as this closed walk shows.
fn uncovered(alloc: Global, kernel: &Kernel, table: &Table, cycle: &Cycle) -> ScheduleError
    requires timed { AllTimed table.now kernel.now.nodes }
    requires causal { IsCausal (edges_of kernel.now.nodes) }
    requires cycle { IsPositiveCycle (problem_of table.now kernel.now.nodes).arcs.list cycle.now.arcs }
    requires none { (x : Numbers) → Solves x (problem_of table.now kernel.now.nodes).arcs.list → ⊥ }
    ensures { IsRefused table.now kernel.now.nodes result }
{
    schedules_are_solutions(kernel, table);
    match uncovered_walk(alloc, kernel, table, cycle) {
        Ok(walk) => ScheduleError::Uncovered(walk),
        Err(error) => ScheduleError::Edges(error),
    }
}
