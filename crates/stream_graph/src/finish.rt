// A graph is made a kernel.
ghost use Rattle.std.specs.Prelude.{◌≡◌, [], IfOk, IfErr, OnOk, IsTrue, length, ◌<◌, ◌^◌, ◌≤◌};
ghost use Rattle.kernel_calls.specs.Laws.{AreLawful, is_port_name};
ghost use Rattle.stream_graph.specs.Nodes.{later, AreNodes};
ghost use Rattle.stream_graph.specs.Kernels.{IsSound, MayRefuse};
ghost use Rattle.stream_graph.specs.Faults.{NoneHas, SaysFault};
ghost use Rattle.stream_graph.specs.declared.fault.Fault.TheVariants.{EmptyChain, ConnectedTwice, Unconnected};

use crate::fault::Fault;
use crate::node::Node;
use crate::{Graph, GraphError, Kernel};
use mx_base::{List, Text};
use std::alloc::Global;

/// A kernel has at most so many nodes.
const MOST_NODES: u32 = 4096;

// Tests that no node has a fault.
fn find_fault(nodes: &[Node]) -> Result<(), GraphError>
    requires { length nodes.now < 2 ^ 32 }
    ensures chains { OnOk result (NoneHas EmptyChain nodes.now) }
    ensures once { OnOk result (NoneHas ConnectedTwice nodes.now) }
    ensures connected { OnOk result (NoneHas Unconnected nodes.now) }
    ensures err { IfErr result (SaysFault nodes.now) }
{
    if let Some(node) = Fault::EmptyChain.first(nodes) {
        return Err(GraphError::EmptyChain(node));
    }
    if let Some(node) = Fault::ConnectedTwice.first(nodes) {
        return Err(GraphError::ConnectedTwice(node));
    }
    if let Some(node) = Fault::Unconnected.first(nodes) {
        return Err(GraphError::Unconnected(node));
    }
    Ok(())
}

impl Graph {
    ghost use Rattle.stream_graph.specs.Received.{received};

    /// The kernel of this name that the calls make. Of the refusals the first that stands is
    /// answered: `TooManyNodes`, `SamePort` (the first port in the order of nodes whose name a port
    /// of its kind has already), `EmptyChain`, `ConnectedTwice`, `Unconnected` (each the first such
    /// node). Where it refuses, the graph is dropped.
    pub fn finish(self, alloc: Global, name: Text) -> Result<Kernel, GraphError>
        requires name { IsTrue (is_port_name name) }
        requires lawful { AreLawful [] (received self) }
        ensures sound { IfOk result (λ kernel. IsSound (received self)) }
        ensures nodes { IfOk result (λ kernel. AreNodes (later [] (received self)) kernel.nodes) }
        ensures name { IfOk result (λ kernel. kernel.name ≡ name) }
        ensures err { IfErr result (MayRefuse (received self)) }
    {
        if self.made > MOST_NODES {
            return Err(GraphError::TooManyNodes(self.made));
        }
        self.ports_differ(alloc)?;
        let nodes = self.nodes(alloc)?;
        find_fault(nodes.as_slice())?;
        Ok(Kernel {
            name,
            nodes: List::from_vec(nodes),
        })
    }
}
