// The ports of the top module.
ghost use Rattle.std.specs.Prelude.{◌≡◌, ◌<◌, ◌≤◌, ◌++◌, ◌∷◌, [], All, length, map, codes, IfOk, OnOk};
ghost use Rattle.std.specs.List.{flat_map};
ghost use Rattle.fix_arith.specs.Types.{width_of};
ghost use Rattle.rtl_ir.specs.Ports.{
  input_port,
  kernel_ports,
  scalar_ports,
  host_input_ports,
  host_output_ports,
  shape_ports,
};
ghost use Rattle.rtl_build.specs.Wires.{empty};
ghost use Rattle.stream_graph.specs.LookUps.{node_at};
ghost use Rattle.manager_links.specs.Hosts.{HasType};
ghost use Rattle.manager_links.specs.Rules.{kernel_names};
ghost use Rattle.project_rtl.specs.Shapes.{scalar_shape, scalar_shapes, host_shape, shape_of};
ghost use Rattle.project_design.specs.Nodes.{AreWithin};
ghost use Rattle.project_design.specs.Building.{with_ports};

use crate::nodes::{PortNodes, width};
use manager_links::{HostPort, Project};
use mx_base::{NoMemory, Text};
use rtl_build::Netlist;
use std::alloc::Global;
use stream_graph::{Kernel, NodeId};

/// A name of these bytes.
pub(crate) fn text(alloc: Global, bytes: &[u8]) -> Result<Text, NoMemory>
    ensures { IfOk result (λ t. t ≡ bytes.now) }
{
    Ok(Text::from_vec(bytes.to_vec(alloc)?))
}

/// A name of these bytes, one after the other.
pub(crate) fn joined(alloc: Global, front: &[u8], back: &[u8]) -> Result<Text, NoMemory>
    ensures { IfOk result (λ t. t ≡ front.now ++ back.now) }
{
    let mut name = text(alloc, front)?;
    name.append(back)?;
    Ok(name)
}

// The name of a port of a stream of the host.
fn stream_name(alloc: Global, front: &[u8], host: &HostPort, back: &[u8]) -> Result<Text, NoMemory>
    ensures { IfOk result (λ t. t ≡ front.now ++ host.now.name ++ back.now) }
{
    let mut name = joined(alloc, front, host.name.as_bytes())?;
    name.append(back)?;
    Ok(name)
}

// The name of the port of a scalar.
fn scalar_name(alloc: Global, kernel: &Kernel, scalar: NodeId) -> Result<Text, NoMemory>
    requires { scalar < length kernel.now.nodes }
    ensures { IfOk result (λ t. t ≡ codes "scalar$" ++ kernel.now.name ++ codes "$"
        ++ (node_at kernel.now.nodes scalar).name) }
{
    let mut name = joined(alloc, b"scalar$", kernel.name())?;
    name.append(b"$")?;
    name.append(kernel.port_name(scalar))?;
    Ok(name)
}

/// The width of the words of a stream of the host, 1 to 128 bits: that of its port.
pub(crate) fn host_width(kernels: &[Kernel], host: &HostPort) -> u8
    requires { HasType kernels.now host.now }
    ensures is { result ≡ width_of host.now.t }
    ensures some { 1 ≤ result }
    ensures at_most { result ≤ 128 }
{
    width(
        &kernels[host.port.kernel as usize],
        NodeId::new(host.port.node),
    )
}

// Whether a kernel is held, and the number of its ticks.
fn add_kernel(alloc: Global, netlist: &mut Netlist, kernel: &Kernel) -> Result<(), NoMemory>
    ensures { OnOk result (netlist.new
        ≡ with_ports netlist.old (kernel_ports (kernel.now.name ∷ []))) }
{
    netlist.input(joined(alloc, b"hold$", kernel.name())?, 1)?;
    netlist.input(joined(alloc, b"ticks$", kernel.name())?, 48)?;
    Ok(())
}

// The same of each of these kernels.
fn add_kernels(alloc: Global, netlist: &mut Netlist, kernels: &[Kernel]) -> Result<(), NoMemory>
    ensures { OnOk result (netlist.new
        ≡ with_ports netlist.old (kernel_ports (kernel_names kernels.now))) }
{
    for kernel in kernels {
        add_kernel(alloc, netlist, kernel)?;
    }
    Ok(())
}

// The values of the scalars of a kernel.
fn add_scalars(
    alloc: Global,
    netlist: &mut Netlist,
    kernel: &Kernel,
    scalars: &[NodeId],
) -> Result<(), NoMemory>
    requires { AreWithin kernel.now.nodes scalars.now }
    ensures { OnOk result (netlist.new ≡ with_ports netlist.old
        (scalar_ports (map (scalar_shape kernel.now) scalars.now))) }
{
    for scalar in scalars {
        netlist.input(scalar_name(alloc, kernel, *scalar)?, width(kernel, *scalar))?;
    }
    Ok(())
}

// The values of the scalars of all kernels.
fn add_all_scalars(alloc: Global, netlist: &mut Netlist, kernels: &[Kernel]) -> Result<(), NoMemory>
    ensures { OnOk result (netlist.new ≡ with_ports netlist.old
        (scalar_ports (flat_map scalar_shapes kernels.now))) }
{
    for kernel in kernels {
        let ports = PortNodes::of(alloc, kernel)?;
        add_scalars(alloc, netlist, kernel, ports.scalars.as_slice())?;
    }
    Ok(())
}

// The three ports of a stream from the host.
fn add_input(
    alloc: Global,
    netlist: &mut Netlist,
    kernels: &[Kernel],
    host: &HostPort,
) -> Result<(), NoMemory>
    requires { HasType kernels.now host.now }
    ensures { OnOk result (netlist.new ≡ with_ports netlist.old
        (host_input_ports (host_shape host.now ∷ []))) }
{
    let bits = host_width(kernels, host);
    netlist.input(stream_name(alloc, b"in$", host, b"$data")?, bits)?;
    netlist.input(stream_name(alloc, b"in$", host, b"$valid")?, 1)?;
    netlist.output(stream_name(alloc, b"in$", host, b"$ready")?, 1)?;
    Ok(())
}

// The ports of streams from the host.
fn add_inputs(
    alloc: Global,
    netlist: &mut Netlist,
    kernels: &[Kernel],
    hosts: &[HostPort],
) -> Result<(), NoMemory>
    requires { All (HasType kernels.now) hosts.now }
    ensures { OnOk result (netlist.new ≡ with_ports netlist.old
        (host_input_ports (map host_shape hosts.now))) }
{
    for host in hosts {
        add_input(alloc, netlist, kernels, host)?;
    }
    Ok(())
}

// The three ports of a stream to the host.
fn add_output(
    alloc: Global,
    netlist: &mut Netlist,
    kernels: &[Kernel],
    host: &HostPort,
) -> Result<(), NoMemory>
    requires { HasType kernels.now host.now }
    ensures { OnOk result (netlist.new ≡ with_ports netlist.old
        (host_output_ports (host_shape host.now ∷ []))) }
{
    let bits = host_width(kernels, host);
    netlist.output(stream_name(alloc, b"out$", host, b"$data")?, bits)?;
    netlist.output(stream_name(alloc, b"out$", host, b"$valid")?, 1)?;
    netlist.input(stream_name(alloc, b"out$", host, b"$ready")?, 1)?;
    Ok(())
}

// The ports of streams to the host.
fn add_outputs(
    alloc: Global,
    netlist: &mut Netlist,
    kernels: &[Kernel],
    hosts: &[HostPort],
) -> Result<(), NoMemory>
    requires { All (HasType kernels.now) hosts.now }
    ensures { OnOk result (netlist.new ≡ with_ports netlist.old
        (host_output_ports (map host_shape hosts.now))) }
{
    for host in hosts {
        add_output(alloc, netlist, kernels, host)?;
    }
    Ok(())
}

// Adds a clock and a reset.
fn add_clock(alloc: Global, netlist: &mut Netlist) -> Result<(), NoMemory>
    ensures { OnOk result (netlist.new ≡ with_ports netlist.old
        (input_port (codes "clk") 1 ∷ input_port (codes "reset") 1 ∷ [])) }
{
    netlist.input(text(alloc, b"clk")?, 1)?;
    netlist.input(text(alloc, b"reset")?, 1)?;
    Ok(())
}

// The ports of the kernels of a project.
fn add_own(alloc: Global, netlist: &mut Netlist, project: &Project) -> Result<(), NoMemory>
    ensures { OnOk result (netlist.new ≡ with_ports netlist.old
        (kernel_ports (kernel_names project.now.kernels)
        ++ scalar_ports (flat_map scalar_shapes project.now.kernels))) }
{
    add_kernels(alloc, netlist, project.kernels())?;
    add_all_scalars(alloc, netlist, project.kernels())?;
    Ok(())
}

// The ports of its streams of the host.
fn add_streams(alloc: Global, netlist: &mut Netlist, project: &Project) -> Result<(), NoMemory>
    ensures { OnOk result (netlist.new ≡ with_ports netlist.old
        (host_input_ports (map host_shape project.now.joints.inputs)
        ++ host_output_ports (map host_shape project.now.joints.outputs))) }
{
    add_inputs(alloc, netlist, project.kernels(), project.inputs())?;
    add_outputs(alloc, netlist, project.kernels(), project.outputs())?;
    Ok(())
}

// Adds the ports of the design of a project.
fn add_ports(alloc: Global, netlist: &mut Netlist, project: &Project) -> Result<(), NoMemory>
    ensures { OnOk result (netlist.new
        ≡ with_ports netlist.old (shape_ports (shape_of project.now))) }
{
    add_clock(alloc, netlist)?;
    add_own(alloc, netlist, project)?;
    add_streams(alloc, netlist, project)?;
    netlist.output(text(alloc, b"done")?, 1)?;
    Ok(())
}

/// The module `top$project` that has the ports of the design of a project, and nothing else.
pub fn ports_alone(alloc: Global, project: &Project) -> Result<Netlist, NoMemory>
    ensures { IfOk result (λ m. m
        ≡ with_ports (empty (codes "top$project")) (shape_ports (shape_of project.now))) }
{
    let mut netlist = Netlist::new(alloc, text(alloc, b"top$project")?);
    add_ports(alloc, &mut netlist, project)?;
    Ok(netlist)
}
