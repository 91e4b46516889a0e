// The problem of a kernel, or why it has none.
ghost use Rattle.std.specs.Prelude.{◌≡◌, ◌≤◌, ◌+◌, ◌^◌, length, IfOk, OnOk, IfErr};
ghost use Rattle.cycle_find.specs.Constraints.{NeedsWithin};
ghost use Rattle.schedule_problem.specs.Optimum.{IsProblem};
ghost use Rattle.offset_edges.specs.Edges.{edges_of};
ghost use Rattle.offset_edges.specs.Latencies.{AllTimed};
ghost use Rattle.offset_edges.specs.Walks.{IsCausal};
ghost use Rattle.offset_edges.specs.Problems.{problem_of};
ghost use Rattle.offset_edges.specs.Refused.{IsRefused};

use crate::causal::round_ahead;
use crate::latency::latencies;
use crate::problem::problem_over;
use crate::walk::walk_over;
use crate::{EdgeError, edge_list};
use latency_table::Table;
use schedule_problem::Problem;
use std::alloc::Global;
use stream_graph::Kernel;

/// The problem of a kernel's schedules by a latency table, which can be solved: it has twice as
/// many nodes as the kernel, two arcs an edge, and a term for each node that is read. Errors, of
/// which the first that stands is answered: `NoLatency` exactly where the table has no row for an
/// operation of the kernel, the first in node order; `Cycle` exactly where the kernel isn't causal.
pub fn edges(alloc: Global, kernel: &Kernel, table: &Table) -> Result<Problem, EdgeError>
    ensures problem { IfOk result (λ problem. problem ≡ problem_of table.now kernel.now.nodes) }
    ensures solvable { IfOk result IsProblem }
    ensures few { IfOk result (λ problem. length problem.arcs.list ≤ 2 ^ 20) }
    ensures small { IfOk result (λ problem. NeedsWithin (2 ^ 32 + 64) problem.arcs.list) }
    ensures timed { OnOk result (AllTimed table.now kernel.now.nodes) }
    ensures causal { OnOk result (IsCausal (edges_of kernel.now.nodes)) }
    ensures err { IfErr result (IsRefused table.now kernel.now.nodes) }
{
    let ticks = latencies(alloc, kernel, table)?;
    let edges = edge_list(alloc, kernel)?;
    if let Some(round) = round_ahead(alloc, kernel.count(), edges.as_slice())? {
        let walk = walk_over(alloc, edges.as_slice(), ticks.as_slice(), round.as_slice())?;
        return Err(EdgeError::Cycle(walk));
    }
    Ok(problem_over(alloc, kernel, edges.as_slice(), ticks.as_slice())?)
}
