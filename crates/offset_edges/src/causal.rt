// Whether a kernel is causal.
ghost use Rattle.std.specs.Prelude.{◌≡◌, ℕ, ◌<◌, ◌≤◌, ◌^◌, map, length, IfOk, IfSome, IfNone};
ghost use Rattle.offset_edges.specs.Edges.{edge_at, IsSmall};
ghost use Rattle.offset_edges.specs.Walks.{IsCausal, IsRound, constraint_of};

use crate::Edge;
use cycle_find::{Arc, Arcs, SolveError, solve};
use mx_base::{List, NoMemory};
use std::alloc::Global;

/// The numbers of the edges of a simple closed walk on which no tick is looked back, or `None`
/// where there is no such walk, so that the kernel of the edges is causal.
pub(crate) fn round_ahead(
    alloc: Global,
    nodes: u32,
    edges: &[Edge],
) -> Result<Option<List<u32>>, NoMemory>
    requires nodes { nodes ≤ 4096 }
    requires few { length edges.now ≤ 2 ^ 19 }
    requires edges { (j : ℕ) → j < length edges.now → IsSmall nodes (edge_at edges.now j) }
    ensures causal { IfOk result (λ round. IfNone round (IsCausal edges.now)) }
    ensures round { IfOk result (λ round. IfSome round (IsRound nodes edges.now)) }
{
    let arcs = constraints(alloc, nodes, edges)?;
    match solve(alloc, &arcs) {
        Ok(_) => Ok(None),
        Err(SolveError::Cycle(cycle)) => Ok(Some(cycle.arcs)),
        Err(SolveError::NoMemory) => Err(NoMemory),
    }
}

// Constraints that can be met exactly where each closed walk of edges looks back at least one tick.
// A simple one has at most as many edges as there are nodes: so the sum of its needs, which is the
// sum of its offsets times the number of nodes, and 1 for each edge, is above 0 exactly where the
// sum of its offsets isn't below 0.
fn constraints(alloc: Global, nodes: u32, edges: &[Edge]) -> Result<Arcs, NoMemory>
    requires nodes { nodes ≤ 4096 }
    requires edges { (j : ℕ) → j < length edges.now → IsSmall nodes (edge_at edges.now j) }
    ensures nodes { IfOk result (λ arcs. arcs.nodes ≡ nodes) }
    ensures arcs { IfOk result (λ arcs. arcs.list ≡ map (constraint_of nodes) edges.now) }
{
    let mut list = List::new(alloc);
    for edge in edges {
        list.push(Arc {
            from: edge.from,
            to: edge.to,
            need: edge.offset * i64::from(nodes) + 1,
        })?;
    }
    Ok(Arcs { nodes, list })
}
