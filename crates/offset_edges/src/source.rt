// Past offset nodes, to the node whose words an operand is.
ghost use Rattle.std.specs.Prelude.{◌≡◌, ◌<◌, ◌≤◌, length, IfOk};
ghost use Rattle.offset_edges.specs.Edges.{source_of, AreSources};

use mx_base::NoMemory;
use std::alloc::Global;
use stream_graph::{Kernel, Kind, NodeId};

/// The words of a node that is no offset, so many ticks ahead, below 0 for the past.
#[derive(Clone, Copy, PartialEq, Eq)]
pub struct Source {
    pub node: u32,
    pub offset: i64,
}

/// What each node of a kernel is read as, in node order: an offset as what its operand is read as, so
/// many ticks further ahead, and each other node as itself. The only error is want of memory.
pub fn sources(alloc: Global, kernel: &Kernel) -> Result<Vec<Source>, NoMemory>
    ensures { IfOk result (λ sources.
        AreSources kernel.now.nodes (length kernel.now.nodes) sources.items) }
{
    let mut sources = Vec::new(alloc);
    for number in 0..kernel.count() {
        let source = source_at(kernel, sources.as_slice(), number);
        sources.push(source)?;
    }
    Ok(sources)
}

// What a node is read as, by what the nodes before it are.
fn source_at(kernel: &Kernel, earlier: &[Source], number: u32) -> Source
    requires node { number < length kernel.now.nodes }
    requires earlier { AreSources kernel.now.nodes number earlier.now }
    ensures { result ≡ source_of kernel.now.nodes number }
{
    let id = NodeId::new(number);
    let Kind::Offset(ticks) = kernel.node(id).kind else {
        return Source {
            node: number,
            offset: 0,
        };
    };
    let behind = earlier[kernel.operands(id)[0].index()];
    Source {
        node: behind.node,
        offset: i64::from(ticks) + behind.offset,
    }
}
