// The search for an order of a whole graph.
ghost use Rattle.std.specs.Prelude.{◌≤◌, ◌^◌, length, IfOk};
ghost use Rattle.digraph.specs.Graph.{IsGraph, RanksOrWalk};

use crate::search::{Search, visit};
use crate::walk::walk_from;
use crate::{Found, Order, Row};
use mx_base::NoMemory;
use std::alloc::Global;

/// Ranks of all nodes, or a closed walk from its least node that meets no node twice.
pub fn rank(alloc: Global, graph: &[Row<u32>]) -> Result<Found, NoMemory>
    requires graph { IsGraph graph.now }
    requires small { length graph.now ≤ 2 ^ 32 }
    ensures { IfOk result (λ found. RanksOrWalk graph.now found) }
{
    let n = graph.len();
    let mut search = Search {
        rank: vec![in alloc; 0; n]?,
        fresh: vec![in alloc; true; n]?,
        path: Vec::new(alloc),
        next: Vec::new(alloc),
        order: Vec::new(alloc),
    };
    for node in 0..n {
        if search.rank[node] == 0 {
            if let Some(at) = visit(graph, &mut search, node as u32)? {
                return Ok(Found::Walk(walk_from(alloc, search.path.as_slice(), at)?));
            }
        }
    }
    Ok(Found::Ranks(Order {
        nodes: search.order,
        rank: search.rank,
    }))
}
