// The blocks of nets that the kernels have in the top module.
ghost use Rattle.std.specs.Prelude.{◌≡◌, ◌+◌, ◌*◌, ◌≤◌, ◌^◌, length, IfOk};
ghost use Rattle.project_rtl.specs.Blocks as Own;
ghost use Rattle.project_design.specs.Building.{IsBlockAt, AreBlocks, IsKnown};

use crate::nodes::PortNodes;
use manager_links::{PortAt, Project};
use mx_base::NoMemory;
use std::alloc::Global;
use stream_graph::{Kernel, NodeId};

/// What a kernel has in the top module: its scalars, and the number of the port of the first one;
/// its streams, which are its inputs and then its outputs; and the net of the data of the first one.
/// The nets of the streams stand together, data, valid and ready of each, and behind them is the one
/// that says whether the kernel has ended.
#[derive(Drop)]
pub(crate) struct Block {
    pub scalars: Vec<NodeId>,
    pub streams: Vec<NodeId>,
    pub first_scalar: u32,
    pub first_net: u32,
}

// The place of a node among these, and 0 where it isn't among them.
fn place_of(nodes: &[NodeId], node: u32) -> u32
    requires { length nodes.now ≤ 2 ^ 13 }
    ensures is { result ≡ Own.place_of node nodes.now }
    ensures small { result ≤ 2 ^ 13 }
{
    for (place, other) in nodes.iter().enumerate() {
        if other.number() == node {
            return place as u32;
        }
    }
    0
}

impl Block {
    /// The block of a kernel whose first scalar has this port and whose first net is this one.
    fn of(
        alloc: Global,
        kernel: &Kernel,
        first_scalar: u32,
        first_net: u32,
    ) -> Result<Self, NoMemory>
        ensures { IfOk result (IsBlockAt kernel.now first_scalar first_net) }
    {
        let ports = PortNodes::of(alloc, kernel)?;
        let mut streams = ports.inputs;
        streams.extend_from_slice(ports.outputs.as_slice())?;
        Ok(Block {
            scalars: ports.scalars,
            streams,
            first_scalar,
            first_net,
        })
    }

    /// How many nets it has.
    pub(crate) fn size(&self) -> u32
        requires { length self.now.streams.items ≤ 2 ^ 13 }
        ensures { result ≡ 3 * length self.now.streams.items + 1 }
    {
        3 * self.streams.len() as u32 + 1
    }

    /// The net that says whether the kernel has ended.
    pub(crate) fn ended_net(&self) -> u32
        requires few { length self.now.streams.items ≤ 2 ^ 13 }
        requires small { self.now.first_net + 2 ^ 15 ≤ 2 ^ 24 }
        ensures { result ≡ self.now.first_net + 3 * length self.now.streams.items }
    {
        self.first_net + 3 * self.streams.len() as u32
    }

    // The net of the data of a stream.
    fn net_of(&self, node: u32) -> u32
        requires few { length self.now.streams.items ≤ 2 ^ 13 }
        requires small { self.now.first_net + 2 ^ 15 ≤ 2 ^ 24 }
        ensures { result ≡ self.now.first_net + 3 * Own.place_of node self.now.streams.items }
    {
        self.first_net + 3 * place_of(self.streams.as_slice(), node)
    }
}

/// The blocks of the kernels of a project, in its order.
#[derive(Drop)]
pub(crate) struct Blocks<'a> {
    pub project: &'a Project,
    pub each: Vec<Block>,
}

impl<'a> Blocks<'a> {
    /// The blocks of a project, where the first scalar has this port, and the first block begins
    /// with this net.
    pub(crate) fn of(
        alloc: Global,
        project: &'a Project,
        first_scalar: u32,
        first_net: u32,
    ) -> Result<Self, NoMemory>
        requires scalar { first_scalar ≡ Own.first_scalar_port project.now 0 }
        requires net { first_net ≡ Own.first_net project.now 0 }
        ensures are { IfOk result AreBlocks }
        ensures project { IfOk result (λ blocks. blocks.project.now ≡ project.entry.now) }
    {
        let mut each = Vec::new(alloc);
        let (mut scalar, mut net) = (first_scalar, first_net);
        for kernel in project.kernels() {
            let block = Block::of(alloc, kernel, scalar, net)?;
            scalar += block.scalars.len() as u32;
            net += block.size();
            each.push(block)?;
        }
        Ok(Blocks { project, each })
    }

    /// The net of the data of a stream of a kernel. Its valid and its ready are the next ones.
    pub(crate) fn stream_net(&self, port: PortAt) -> u32
        requires blocks { AreBlocks self.now }
        requires known { IsKnown self.now.project.now port }
        ensures is { result ≡ Own.stream_net self.now.project.now port }
        ensures small { result + 3 ≤ 2 ^ 24 }
    {
        self.each[port.kernel as usize].net_of(port.node)
    }
}
