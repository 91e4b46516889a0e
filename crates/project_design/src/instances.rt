// The instances of the top module.
ghost use Rattle.std.specs.Prelude.{◌≡◌, ◌+◌, ◌*◌, ◌≤◌, ◌^◌, ◌++◌, ◌∷◌, [], All, codes, length, IfOk, OnOk};
ghost use Rattle.std.specs.Fmt.{decimal};
ghost use Rattle.manager_links.specs.declared.hosts.HostPort.{HostPort as OneHost};
ghost use Rattle.manager_links.specs.declared.links.LinkEnds.{LinkEnds as OneLink};
ghost use Rattle.project_rtl.specs.Tops as Own;
ghost use Rattle.project_rtl.specs.Tops.{range, instance};
ghost use Rattle.project_design.specs.Building.{AreBlocks, ArePlaces, IsKnown};

use crate::blocks::{Block, Blocks};
use crate::places::Places;
use crate::ports::joined;
use manager_links::{HostPort, LinkEnds};
use mx_base::{List, NoMemory, Text};
use rtl_ir::{Instance, ModuleId, NetId};
use std::alloc::Global;

// Adds so many nets, from one on.
fn add_range(nets: &mut List<NetId>, from: u32, count: u32) -> Result<(), NoMemory>
    requires { from + count ≤ 2 ^ 25 }
    ensures { OnOk result (nets.new ≡ nets.old ++ range from count) }
{
    for place in 0..count {
        nets.push(NetId::new(from + place))?;
    }
    Ok(())
}

// The clock and the reset, and then three nets from each of these on.
fn fifo_nets(alloc: Global, taken: u32, given: u32) -> Result<List<NetId>, NoMemory>
    requires taken { taken + 3 ≤ 2 ^ 24 }
    requires given { given + 3 ≤ 2 ^ 24 }
    ensures { IfOk result (λ nets. nets ≡ Own.fifo_nets taken given) }
{
    let mut nets = List::new(alloc);
    add_range(&mut nets, 0, 2)?;
    add_range(&mut nets, taken, 3)?;
    add_range(&mut nets, given, 3)?;
    Ok(nets)
}

// Adds an instance of the module that has the same number.
fn add_instance(
    instances: &mut List<Instance>,
    name: Text,
    nets: List<NetId>,
) -> Result<(), NoMemory>
    requires { length instances.old ≤ 2 ^ 24 }
    ensures { OnOk result (instances.new
        ≡ instances.old ++ instance (length instances.old) name nets ∷ []) }
{
    let module = ModuleId::new(instances.len() as u32);
    instances.push(Instance { module, name, nets })
}

// Adds the FIFOs of these streams from the host, the first of which begins with this port.
fn add_inputs(
    alloc: Global,
    instances: &mut List<Instance>,
    blocks: &Blocks,
    hosts: &[HostPort],
    first: u32,
) -> Result<(), NoMemory>
    requires blocks { AreBlocks blocks.now }
    requires known { All (λ (host : OneHost). IsKnown blocks.now.project.now host.port) hosts.now }
    requires few { length instances.old + length hosts.now ≤ 2 ^ 24 }
    requires small { first + 3 * length hosts.now ≤ 2 ^ 24 }
    ensures { OnOk result (instances.new ≡ instances.old
        ++ Own.input_instances blocks.now.project.now (length instances.old) first hosts.now) }
{
    let mut port = first;
    for host in hosts {
        let name = joined(alloc, b"fifo$in$", host.name.as_bytes())?;
        let nets = fifo_nets(alloc, port, blocks.stream_net(host.port))?;
        add_instance(instances, name, nets)?;
        port += 3;
    }
    Ok(())
}

// Adds the FIFOs of these streams to the host likewise.
fn add_outputs(
    alloc: Global,
    instances: &mut List<Instance>,
    blocks: &Blocks,
    hosts: &[HostPort],
    first: u32,
) -> Result<(), NoMemory>
    requires blocks { AreBlocks blocks.now }
    requires known { All (λ (host : OneHost). IsKnown blocks.now.project.now host.port) hosts.now }
    requires few { length instances.old + length hosts.now ≤ 2 ^ 24 }
    requires small { first + 3 * length hosts.now ≤ 2 ^ 24 }
    ensures { OnOk result (instances.new ≡ instances.old
        ++ Own.output_instances blocks.now.project.now (length instances.old) first hosts.now) }
{
    let mut port = first;
    for host in hosts {
        let name = joined(alloc, b"fifo$out$", host.name.as_bytes())?;
        let nets = fifo_nets(alloc, blocks.stream_net(host.port), port)?;
        add_instance(instances, name, nets)?;
        port += 3;
    }
    Ok(())
}

// The name of the instance of the FIFO of the link of this number.
fn link_name(alloc: Global, number: usize) -> Result<Text, NoMemory>
    ensures { IfOk result (λ t. t ≡ codes "fifo$link$" ++ decimal number) }
{
    let name = format!(in alloc; "fifo$link${number}")?;
    Ok(Text::from_vec(name.into_bytes()))
}

// Adds the FIFOs of these links.
fn add_links(
    alloc: Global,
    instances: &mut List<Instance>,
    blocks: &Blocks,
    links: &[LinkEnds],
) -> Result<(), NoMemory>
    requires blocks { AreBlocks blocks.now }
    requires from { All (λ (link : OneLink). IsKnown blocks.now.project.now link.from) links.now }
    requires to { All (λ (link : OneLink). IsKnown blocks.now.project.now link.to) links.now }
    requires few { length instances.old + length links.now ≤ 2 ^ 24 }
    ensures { OnOk result (instances.new ≡ instances.old
        ++ Own.link_instances blocks.now.project.now (length instances.old) 0 links.now) }
{
    for (number, link) in links.iter().enumerate() {
        let name = link_name(alloc, number)?;
        let taken = blocks.stream_net(link.from);
        let given = blocks.stream_net(link.to);
        add_instance(instances, name, fifo_nets(alloc, taken, given)?)?;
    }
    Ok(())
}

// The nets of the kernel of this number: the ports of the top module that are its own, and then its
// block.
fn kernel_nets(alloc: Global, number: u32, block: &Block) -> Result<List<NetId>, NoMemory>
    requires number { number ≤ 64 }
    requires few_scalars { length block.now.scalars.items ≤ 2 ^ 12 }
    requires few_streams { length block.now.streams.items ≤ 2 ^ 13 }
    requires scalar_small { block.now.first_scalar + 2 ^ 12 ≤ 2 ^ 24 }
    requires net_small { block.now.first_net + 2 ^ 15 ≤ 2 ^ 24 }
    ensures { IfOk result (λ nets. nets ≡ range 0 2 ++ range (2 + 2 * number) 2
        ++ range block.now.first_scalar (length block.now.scalars.items)
        ++ range block.now.first_net (3 * length block.now.streams.items + 1)) }
{
    let mut nets = List::new(alloc);
    add_range(&mut nets, 0, 2)?;
    add_range(&mut nets, 2 + 2 * number, 2)?;
    add_range(&mut nets, block.first_scalar, block.scalars.len() as u32)?;
    add_range(&mut nets, block.first_net, block.size())?;
    Ok(nets)
}

// Adds the kernels of a project.
fn add_kernels(
    alloc: Global,
    instances: &mut List<Instance>,
    blocks: &Blocks,
) -> Result<(), NoMemory>
    requires blocks { AreBlocks blocks.now }
    requires few { length instances.old + 64 ≤ 2 ^ 24 }
    ensures { OnOk result (instances.new ≡ instances.old
        ++ Own.kernel_instances blocks.now.project.now (length instances.old) 0 blocks.now.project.now.kernels) }
{
    let kernels = blocks.project.kernels();
    for number in 0..kernels.len() {
        let name = joined(alloc, b"kernel$", kernels[number].name())?;
        let nets = kernel_nets(alloc, number as u32, &blocks.each[number])?;
        add_instance(instances, name, nets)?;
    }
    Ok(())
}

/// An instance of each module but the top: the FIFOs of the streams of the host and of the links,
/// and the kernels.
pub(crate) fn instances_of(
    alloc: Global,
    blocks: &Blocks,
    places: Places,
) -> Result<List<Instance>, NoMemory>
    requires blocks { AreBlocks blocks.now }
    requires places { ArePlaces blocks.now.project.now places }
    ensures { IfOk result (λ l. l ≡ Own.instances_of blocks.now.project.now) }
{
    let mut all = List::new(alloc);
    let project = blocks.project;
    add_inputs(alloc, &mut all, blocks, project.inputs(), places.inputs)?;
    add_outputs(alloc, &mut all, blocks, project.outputs(), places.outputs)?;
    add_links(alloc, &mut all, blocks, project.links())?;
    add_kernels(alloc, &mut all, blocks)?;
    Ok(all)
}
