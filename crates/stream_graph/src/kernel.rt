// A kernel, node by node.
ghost use Rattle.std.specs.Prelude.{◌≡◌, ◌<◌, ◌≤◌, Some, length, slice_get, All, IfOk, IsTrue};
ghost use Rattle.std.specs.Option.{option_map};
ghost use Rattle.kernel_calls.specs.Laws.{is_port_name};
ghost use Rattle.stream_graph.specs.Kernels.{AreKernel};

use crate::node::Node;
use crate::{NodeId, NodeView, PortSide};
use counter_chains::CounterDigit;
use mx_base::{List, NoMemory, Text};
use std::alloc::Global;

/// A kernel: its name, which is a letter with letters, digits and `_`, and the nodes that lawful calls made, in the order of their calls.
#[derive(Debug, Drop)]
pub struct Kernel {
    pub(crate) name: Text,
    pub(crate) nodes: List<Node>,
    ghost named: { IsTrue (is_port_name name) },
    ghost few: { length nodes ≤ 4096 },
    ghost made: { ∥ AreKernel nodes ∥₁ },
}

impl Kernel {
    ghost use Rattle.stream_graph.specs.Kinds.{is_on};
    ghost use Rattle.stream_graph.specs.LookUps.{control_of};
    ghost use Rattle.stream_graph.specs.KernelPorts.{numbers_from, inputs_of, outputs_of, scalars_of};

    /// The kernel's name.
    pub fn name(&self) -> &[u8]
        ensures { result.now ≡ self.now.name }
    {
        self.name.as_bytes()
    }

    /// The number of nodes, at most 4,096.
    pub fn count(&self) -> u32
        ensures { result ≡ length self.now.nodes }
    {
        self.nodes.len() as u32
    }

    /// What a node is, the type of its words, and whether it is a port with a control.
    pub fn node(&self, id: NodeId) -> NodeView
        requires { id < length self.now.nodes }
        ensures { option_map (λ node. node.view) (slice_get self.now.nodes id) ≡ Some result }
    {
        self.nodes.at(id.index()).view
    }

    /// The operands of a node, in the order in which its call named them: of an input its control
    /// where it has one, of an output its value and then its control, of a hold its value and then
    /// its store, of a part its chain, and of a feed what is connected to it.
    pub fn operands(&self, id: NodeId) -> &[NodeId]
        requires { id < length self.now.nodes }
        ensures { option_map (λ node. node.operands) (slice_get self.now.nodes id) ≡ Some result.now }
    {
        self.nodes.at(id.index()).operands.as_slice()
    }

    /// The name of a port, and of another node no bytes.
    pub fn port_name(&self, id: NodeId) -> &[u8]
        requires { id < length self.now.nodes }
        ensures { option_map (λ node. node.name) (slice_get self.now.nodes id) ≡ Some result.now }
    {
        self.nodes.at(id.index()).name.as_bytes()
    }

    /// The digits with which a node counts: of a counter and of a part its own, of a chain all of
    /// its parts', the outermost first, and of another node none.
    pub fn digits(&self, id: NodeId) -> &[CounterDigit]
        requires { id < length self.now.nodes }
        ensures { option_map (λ node. node.digits) (slice_get self.now.nodes id) ≡ Some result.now }
    {
        self.nodes.at(id.index()).digits.as_slice()
    }

    /// The node of the control of a port, where it has one, or of the store of a hold.
    pub fn control(&self, id: NodeId) -> Option<NodeId>
        requires { id < length self.now.nodes }
        ensures { result ≡ control_of self.now.nodes id }
    {
        let place = self.node(id).kind.control_place()?;
        self.operands(id).get(place).copied()
    }

    /// The inputs, in node order. The only error of this call and of the next two is want of memory.
    pub fn inputs(&self, alloc: Global) -> Result<Vec<NodeId>, NoMemory>
        ensures nodes { IfOk result (λ nodes. nodes.items ≡ inputs_of self.now.nodes) }
        ensures within { IfOk result (λ nodes. All (λ n. n < length self.now.nodes) nodes.items) }
    {
        self.ports(alloc, PortSide::Input)
    }

    /// The outputs, in node order.
    pub fn outputs(&self, alloc: Global) -> Result<Vec<NodeId>, NoMemory>
        ensures nodes { IfOk result (λ nodes. nodes.items ≡ outputs_of self.now.nodes) }
        ensures within { IfOk result (λ nodes. All (λ n. n < length self.now.nodes) nodes.items) }
    {
        self.ports(alloc, PortSide::Output)
    }

    /// The scalars, in node order.
    pub fn scalars(&self, alloc: Global) -> Result<Vec<NodeId>, NoMemory>
        ensures nodes { IfOk result (λ nodes. nodes.items ≡ scalars_of self.now.nodes) }
        ensures within { IfOk result (λ nodes. All (λ n. n < length self.now.nodes) nodes.items) }
    {
        self.ports(alloc, PortSide::Scalar)
    }

    // The ports of a side, in node order.
    fn ports(&self, alloc: Global, side: PortSide) -> Result<Vec<NodeId>, NoMemory>
        ensures nodes { IfOk result (λ nodes. nodes.items ≡ numbers_from (is_on side) 0 self.now.nodes) }
        ensures within { IfOk result (λ nodes. All (λ n. n < length self.now.nodes) nodes.items) }
    {
        let mut ports = Vec::new(alloc);
        for number in 0..self.count() {
            let node = NodeId::new(number);
            if side.has(self.node(node).kind) {
                ports.push(node)?;
            }
        }
        Ok(ports)
    }
}
