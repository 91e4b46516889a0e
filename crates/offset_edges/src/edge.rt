// The edges of a kernel, in order.
ghost use Rattle.std.specs.Prelude.{◌≡◌, ◌<◌, ◌≤◌, ◌^◌, ◌++◌, All, length, option_to_list, IfOk, OnOk};
ghost use Rattle.offset_edges.specs.Edges.{edges_of, edges_into, edge_of, IsEdge, AreSources};

use crate::source::{Source, sources};
use mx_base::NoMemory;
use std::alloc::Global;
use stream_graph::{Kernel, NodeId};

/// The node `to` reads the words of the node `from`, so many ticks ahead, below 0 for the past.
#[derive(Clone, Copy, PartialEq, Eq)]
pub struct Edge {
    pub from: u32,
    pub to: u32,
    pub offset: i64,
}

/// The edges of a kernel, in the order of the nodes that read and then of their operands. A node
/// that is no offset reads each of its operands over an edge, from the node behind the offset
/// nodes, whose offsets are summed; there is none where that node is a constant or a scalar.
pub fn edge_list(alloc: Global, kernel: &Kernel) -> Result<Vec<Edge>, NoMemory>
    ensures edges { IfOk result (λ edges. edges.items ≡ edges_of kernel.now.nodes) }
    ensures each { IfOk result (λ edges. All (IsEdge kernel.now.nodes) edges.items) }
    ensures few { IfOk result (λ edges. length edges.items ≤ 2 ^ 19) }
{
    let sources = sources(alloc, kernel)?;
    let mut edges = Vec::new(alloc);
    for number in 0..kernel.count() {
        push_edges(kernel, sources.as_slice(), number, &mut edges)?;
    }
    Ok(edges)
}

// Adds the edges over which one node reads.
fn push_edges(
    kernel: &Kernel,
    sources: &[Source],
    number: u32,
    edges: &mut Vec<Edge>,
) -> Result<(), NoMemory>
    requires node { number < length kernel.now.nodes }
    requires sources { AreSources kernel.now.nodes (length kernel.now.nodes) sources.now }
    ensures { OnOk result (edges.new.items ≡ edges.old.items ++ edges_into kernel.now.nodes number) }
{
    let id = NodeId::new(number);
    if kernel.node(id).kind.is_offset() {
        return Ok(());
    }
    for operand in kernel.operands(id) {
        if let Some(edge) = edge_over(kernel, sources, number, *operand) {
            edges.push(edge)?;
        }
    }
    Ok(())
}

// The edge over which a node reads an operand.
fn edge_over(kernel: &Kernel, sources: &[Source], reader: u32, operand: NodeId) -> Option<Edge>
    requires operand { operand < length kernel.now.nodes }
    requires sources { AreSources kernel.now.nodes (length kernel.now.nodes) sources.now }
    ensures { option_to_list result ≡ edge_of kernel.now.nodes reader operand }
{
    let source = sources[operand.index()];
    if kernel.node(NodeId::new(source.node)).kind.is_steady() {
        return None;
    }
    Some(Edge {
        from: source.node,
        to: reader,
        offset: source.offset,
    })
}
