// The walk of edges that shows that a kernel has no legal schedule.
ghost use Rattle.std.specs.Prelude.{◌≡◌, map, IfOk, IfErr};
ghost use Rattle.cycle_find.specs.Constraints.{IsPositiveCycle};
ghost use Rattle.offset_edges.specs.declared.error.EdgeError.TheVariants.{NoMemory as WantOfMemory};
ghost use Rattle.offset_edges.specs.Latencies.{AllTimed};
ghost use Rattle.offset_edges.specs.Problems.{problem_of, edge_under};
ghost use Rattle.offset_edges.specs.Refused.{IsUncovered};

use crate::latency::latencies;
use crate::walk::walk_over;
use crate::{ClosedWalk, EdgeError, edge_list};
use cycle_find::Cycle;
use latency_table::Table;
use mx_base::NoMemory;
use std::alloc::Global;
use stream_graph::Kernel;

/// The closed walk of edges under a closed walk of a kernel's problem whose needs sum above 0, as
/// `solve` and `best` answer it: it looks back fewer ticks than its latencies sum to.
///
/// Such a walk goes over the first of the two arcs of each of its edges, since no arc leads on from
/// the time up to which a node's words are kept.
pub fn uncovered_walk(
    alloc: Global,
    kernel: &Kernel,
    table: &Table,
    cycle: &Cycle,
) -> Result<ClosedWalk, EdgeError>
    requires timed { AllTimed table.now kernel.now.nodes }
    requires cycle { IsPositiveCycle (problem_of table.now kernel.now.nodes).arcs.list cycle.now.arcs }
    ensures uncovered { IfOk result (IsUncovered table.now kernel.now.nodes) }
    ensures memory { IfErr result (λ error. error ≡ WantOfMemory) }
{
    let ticks = latencies(alloc, kernel, table)?;
    let edges = edge_list(alloc, kernel)?;
    let round = edges_under(alloc, cycle)?;
    Ok(walk_over(alloc, edges.as_slice(), ticks.as_slice(), round.as_slice())?)
}

// The numbers of the edges that have these arcs.
fn edges_under(alloc: Global, cycle: &Cycle) -> Result<Vec<u32>, NoMemory>
    ensures { IfOk result (λ round. round.items ≡ map edge_under cycle.now.arcs) }
{
    let mut round = Vec::new(alloc);
    for arc in cycle.arcs.as_slice() {
        round.push(*arc / 2)?;
    }
    Ok(round)
}
