// An order in which the nodes can be built.
ghost use Rattle.std.specs.Prelude.{◌≡◌, ◌≤◌, ◌^◌, map, length, IfOk};
ghost use Rattle.stream_graph.specs.declared.node.Node.{Node};
ghost use Rattle.kernel_layout.specs.Reads.{direct_of};
ghost use Rattle.kernel_layout.specs.Layouts.{IsOrder, HaveNoLoop};

use crate::Read;
use digraph::{Found, Row, rank};
use mx_base::{List, NoMemory};
use std::alloc::Global;

// The nodes whose words are read as they are computed.
fn direct(alloc: Global, reads: &[Read]) -> Result<List<u32>, NoMemory>
    ensures { IfOk result (λ nodes. nodes ≡ direct_of reads.now) }
{
    let mut nodes = List::new(alloc);
    for read in reads {
        if read.behind == 0 {
            nodes.push(read.source)?;
        }
    }
    Ok(nodes)
}

// For each node the nodes that it reads so.
fn direct_graph(alloc: Global, reads: &[List<Read>]) -> Result<Vec<Row<u32>>, NoMemory>
    ensures { IfOk result (λ graph. graph.items ≡ map direct_of reads.now) }
{
    let mut graph = Vec::new(alloc);
    for node in reads {
        graph.push(Row::own(direct(alloc, node.as_slice())?))?;
    }
    Ok(graph)
}

/// The nodes in an order in which each comes after those whose words it reads as they are computed.
pub(crate) fn order(alloc: Global, reads: &[List<Read>]) -> Result<List<u32>, NoMemory>
    requires loops { HaveNoLoop reads.now }
    requires small { length reads.now ≤ 2 ^ 32 }
    ensures { IfOk result (IsOrder reads.now) }
{
    let graph = direct_graph(alloc, reads)?;
    match rank(alloc, graph.as_slice())? {
        Found::Ranks(order) => Ok(List::from_vec(order.nodes)),
        Found::Walk(_) => unreachable!("no node of a causal kernel reads itself so"),
    }
}
