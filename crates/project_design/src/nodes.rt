// The nodes of a kernel that are ports, and what the design has from them.
ghost use Rattle.std.specs.Prelude.{◌≡◌, ◌≤◌, ◌<◌, ◌++◌, ◌∷◌, [], if◌then◌else◌, length, IfOk, OnOk};
ghost use Rattle.stream_graph.specs.LookUps.{node_at, width_at};
ghost use Rattle.stream_graph.specs.Kinds.{is_input, is_output, is_scalar};
ghost use Rattle.project_design.specs.Nodes.{ArePortNodes};

use mx_base::NoMemory;
use std::alloc::Global;
use stream_graph::{Kernel, NodeId};

/// The scalars, inputs and outputs of a kernel, each in node order.
#[derive(Drop)]
pub(crate) struct PortNodes {
    pub scalars: Vec<NodeId>,
    pub inputs: Vec<NodeId>,
    pub outputs: Vec<NodeId>,
}

impl PortNodes {
    /// The ports of a kernel.
    pub(crate) fn of(alloc: Global, kernel: &Kernel) -> Result<Self, NoMemory>
        ensures { IfOk result (ArePortNodes kernel.now.nodes) }
    {
        Ok(PortNodes {
            scalars: kernel.scalars(alloc)?,
            inputs: kernel.inputs(alloc)?,
            outputs: kernel.outputs(alloc)?,
        })
    }
}

/// The width of a node's words, 1 to 128 bits.
pub(crate) fn width(kernel: &Kernel, node: NodeId) -> u8
    requires { node < length kernel.now.nodes }
    ensures is { result ≡ width_at kernel.now.nodes node }
    ensures some { 1 ≤ result }
    ensures at_most { result ≤ 128 }
{
    kernel.node(node).t.width()
}
