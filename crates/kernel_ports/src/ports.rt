// The module of the ports alone.
ghost use Rattle.std.specs.Prelude.{◌≡◌, ◌<◌, length, map, All, IfOk, OnOk};
ghost use Rattle.rtl_ir.specs.Ports.{host_input_ports, host_output_ports};
ghost use Rattle.rtl_delays.specs.Partial.{HasPortsAlone};
ghost use Rattle.kernel_control.specs.Ports.{port_shape, scalar_ports, module_ports};
ghost use Rattle.kernel_ports.specs.Added.{AddsPorts, scalars_at, streams_at, signals_of};
ghost use Rattle.kernel_ports.specs.HasKernelPorts.{HasKernelPorts};

use crate::signals::{KernelSignals, NodeSignal, StreamSignals};
use crate::streams::{
    add_input_stream, add_output_stream, add_own_input, add_own_output, add_scalar, joined,
};
use mx_base::{List, NoMemory};
use rtl_build::Netlist;
use std::alloc::Global;
use stream_graph::{Kernel, NodeId};

// The ports of these nodes, as scalars.
fn add_scalars(
    alloc: Global,
    netlist: &mut Netlist,
    kernel: &Kernel,
    nodes: &[NodeId],
) -> Result<List<NodeSignal>, NoMemory>
    requires alone { HasPortsAlone netlist.old }
    requires nodes { All (λ n. n < length kernel.now.nodes) nodes.now }
    ensures ports { OnOk result (AddsPorts netlist.old netlist.new
        (scalar_ports (map (port_shape kernel.now.nodes) nodes.now))) }
    ensures signals { IfOk result (λ made.
        made ≡ scalars_at kernel.now.nodes (length netlist.old.nets) nodes.now) }
{
    let mut made = List::new(alloc);
    for node in nodes {
        let id = *node;
        let width = kernel.node(id).t.width();
        made.push(add_scalar(alloc, netlist, id.number(), kernel.port_name(id), width)?)?;
    }
    Ok(made)
}

// The ports of these nodes, as inputs.
fn add_inputs(
    alloc: Global,
    netlist: &mut Netlist,
    kernel: &Kernel,
    nodes: &[NodeId],
) -> Result<List<StreamSignals>, NoMemory>
    requires alone { HasPortsAlone netlist.old }
    requires nodes { All (λ n. n < length kernel.now.nodes) nodes.now }
    ensures ports { OnOk result (AddsPorts netlist.old netlist.new
        (host_input_ports (map (port_shape kernel.now.nodes) nodes.now))) }
    ensures signals { IfOk result (λ made.
        made ≡ streams_at kernel.now.nodes (length netlist.old.nets) nodes.now) }
{
    let mut made = List::new(alloc);
    for node in nodes {
        let id = *node;
        let width = kernel.node(id).t.width();
        made.push(add_input_stream(alloc, netlist, id.number(), kernel.port_name(id), width)?)?;
    }
    Ok(made)
}

// The ports of these nodes, as outputs.
fn add_outputs(
    alloc: Global,
    netlist: &mut Netlist,
    kernel: &Kernel,
    nodes: &[NodeId],
) -> Result<List<StreamSignals>, NoMemory>
    requires alone { HasPortsAlone netlist.old }
    requires nodes { All (λ n. n < length kernel.now.nodes) nodes.now }
    ensures ports { OnOk result (AddsPorts netlist.old netlist.new
        (host_output_ports (map (port_shape kernel.now.nodes) nodes.now))) }
    ensures signals { IfOk result (λ made.
        made ≡ streams_at kernel.now.nodes (length netlist.old.nets) nodes.now) }
{
    let mut made = List::new(alloc);
    for node in nodes {
        let id = *node;
        let width = kernel.node(id).t.width();
        made.push(add_output_stream(alloc, netlist, id.number(), kernel.port_name(id), width)?)?;
    }
    Ok(made)
}

// All ports of the kernel's module, of a netlist that has none.
fn add_all(alloc: Global, netlist: &mut Netlist, kernel: &Kernel) -> Result<KernelSignals, NoMemory>
    requires alone { HasPortsAlone netlist.old }
    requires none { length netlist.old.nets ≡ 0 }
    ensures ports { OnOk result
        (AddsPorts netlist.old netlist.new (module_ports kernel.now.nodes)) }
    ensures signals { IfOk result (λ signals. signals ≡ signals_of kernel.now.nodes) }
{
    add_own_input(alloc, netlist, b"clk", 1)?;
    let reset = add_own_input(alloc, netlist, b"reset", 1)?;
    let hold = add_own_input(alloc, netlist, b"hold$", 1)?;
    let ticks = add_own_input(alloc, netlist, b"ticks$", 48)?;
    let nodes = kernel.scalars(alloc)?;
    let scalars = add_scalars(alloc, netlist, kernel, nodes.as_slice())?;
    let nodes = kernel.inputs(alloc)?;
    let inputs = add_inputs(alloc, netlist, kernel, nodes.as_slice())?;
    let nodes = kernel.outputs(alloc)?;
    let outputs = add_outputs(alloc, netlist, kernel, nodes.as_slice())?;
    let ended = add_own_output(alloc, netlist, b"ended$")?;
    Ok(KernelSignals {
        reset,
        hold,
        ticks,
        scalars,
        inputs,
        outputs,
        ended,
    })
}

/// A netlist that has the ports of the kernel's module and nothing else, with their signals. Port
/// number k is net number k. The module is named `kernel$` and the kernel's name, which is a letter
/// and then letters, digits and `_`.
pub fn kernel_ports(alloc: Global, kernel: &Kernel) -> Result<(Netlist, KernelSignals), NoMemory>
    ensures { IfOk result (λ made. HasKernelPorts kernel.now made.0 made.1) }
{
    let mut netlist = Netlist::new(alloc, joined(alloc, b"kernel$", kernel.name(), b"")?);
    let signals = add_all(alloc, &mut netlist, kernel)?;
    Ok((netlist, signals))
}
