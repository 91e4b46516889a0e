// The streams of the CPU, and the ports that they are joined to.
ghost use Rattle.std.specs.Prelude.{◌≡◌, ◌<◌, All, Some, length, slice_get, IsSome, IfOk};
ghost use Rattle.std.specs.List.{AllZip};
ghost use Rattle.kernel_meaning.specs.declared.plan.Join.{Join as OneJoin};
ghost use Rattle.stream_graph.specs.declared.node.Node.{Node};
ghost use Rattle.stream_graph.specs.Kinds.{is_input, is_output};
ghost use Rattle.manager_links.specs.Hosts as Own;
ghost use Rattle.manager_links.specs.Hosts.{IsHostInput, IsHostOutput, HasType, own_host};
ghost use Rattle.manager_links.specs.Numbers.{IsSlot};
ghost use Rattle.manager_links.specs.Placed.{ArePartners};
ghost use Rattle.manager_links.specs.Ports.{node_of, type_of};
ghost use Rattle.manager_links.specs.Rules.{IsHostToHost};
ghost use Rattle.manager_links.specs.Terminals.{terminals};

use crate::PortAt;
use crate::joining::{port_at, type_at};
use crate::names::text_of;
use crate::terminals::Slot;
use fix_arith::StreamType;
use kernel_meaning::Plan;
use mx_base::{List, NoMemory, Text};
use std::alloc::Global;
use stream_graph::{Kernel, Kind, NodeId};

/// A stream from or to the CPU: its name, the port that it is joined to, and the type of its words.
#[derive(Drop)]
pub struct HostPort {
    pub name: Text,
    pub port: PortAt,
    pub t: StreamType,
}

/// The streams from the CPU with the inputs that they feed, and those to the CPU with the outputs
/// that give their words.
#[derive(Drop)]
pub(crate) struct Hosts {
    pub inputs: List<HostPort>,
    pub outputs: List<HostPort>,
}

// The stream of this name that is joined to a port.
fn host_at(
    alloc: Global,
    kernels: &[Kernel],
    name: &Text,
    port: PortAt,
) -> Result<HostPort, NoMemory>
    requires { IsSome (node_of kernels.now port) }
    ensures name { IfOk result (λ host. host.name ≡ name.now) }
    ensures port { IfOk result (λ host. host.port ≡ port) }
    ensures t { IfOk result (HasType kernels.now) }
{
    Ok(HostPort {
        name: name.copy(alloc)?,
        port,
        t: type_at(kernels, port),
    })
}

/// The streams of a manager's plan, in its order, where no stream is joined to another one.
pub(crate) fn managed_hosts(
    alloc: Global,
    kernels: &[Kernel],
    plan: &Plan,
    slots: &[Slot],
    partners: &[usize],
) -> Result<Hosts, NoMemory>
    requires slots { AllZip (IsSlot plan.now kernels.now) (terminals plan.now kernels.now) slots.now }
    requires partners { ArePartners (terminals plan.now kernels.now) plan.now.joins partners.now }
    requires hosts { All (λ (join : OneJoin). IsHostToHost join → ⊥) plan.now.joins }
    ensures inputs { IfOk result (λ hosts.
        AllZip (IsHostInput kernels.now plan.now.joins) plan.now.from_cpu hosts.inputs) }
    ensures outputs { IfOk result (λ hosts.
        AllZip (IsHostOutput kernels.now plan.now.joins) plan.now.to_cpu hosts.outputs) }
    ensures from_types { IfOk result (λ hosts. All (HasType kernels.now) hosts.inputs) }
    ensures to_types { IfOk result (λ hosts. All (HasType kernels.now) hosts.outputs) }
{
    let mut inputs = List::new(alloc);
    let mut outputs = List::new(alloc);
    for number in 0..slots.len() {
        match slots[number] {
            Slot::Port(_) => {}
            Slot::FromCpu(place) => {
                let port = port_at(slots, partners[number]);
                inputs.push(host_at(alloc, kernels, plan.from_cpu.at(place), port)?)?;
            }
            Slot::ToCpu(place) => {
                let port = port_at(slots, partners[number]);
                outputs.push(host_at(alloc, kernels, plan.to_cpu.at(place), port)?)?;
            }
        }
    }
    Ok(Hosts { inputs, outputs })
}

// A stream of the name of a node of a kernel that stands alone, and joined to it.
fn own_host(alloc: Global, kernel: &Kernel, node: u32) -> Result<HostPort, NoMemory>
    requires { node < length kernel.now.nodes }
    ensures { IfOk result (λ host. (n : Node) → slice_get kernel.now.nodes node ≡ Some n
        → host ≡ own_host node n) }
{
    let id = NodeId::new(node);
    Ok(HostPort {
        name: text_of(alloc, kernel.port_name(id))?,
        port: PortAt { kernel: 0, node },
        t: kernel.node(id).t,
    })
}

/// The streams of a kernel that stands alone: one for each input and for each output, of its name,
/// in node order.
pub(crate) fn own_hosts(alloc: Global, kernel: &Kernel) -> Result<Hosts, NoMemory>
    ensures inputs { IfOk result (λ hosts. hosts.inputs ≡ Own.own_hosts is_input 0 kernel.now.nodes) }
    ensures outputs { IfOk result (λ hosts.
        hosts.outputs ≡ Own.own_hosts is_output 0 kernel.now.nodes) }
{
    let mut inputs = List::new(alloc);
    let mut outputs = List::new(alloc);
    for node in 0..kernel.count() {
        match kernel.node(NodeId::new(node)).kind {
            Kind::Input => inputs.push(own_host(alloc, kernel, node)?)?,
            Kind::Output => outputs.push(own_host(alloc, kernel, node)?)?,
            _ => {}
        }
    }
    Ok(Hosts { inputs, outputs })
}
