// The FIFOs of a project.
ghost use Rattle.std.specs.Prelude.{◌≡◌, ◌≤◌, ◌++◌, ◌∷◌, [], All, length, map, IfOk, OnOk};
ghost use Rattle.link_fifo.specs.Fifo.{IsFifoModule};
ghost use Rattle.manager_links.specs.declared.links.Link.{Link as OneLink};
ghost use Rattle.manager_links.specs.Hosts.{HasType};
ghost use Rattle.manager_links.specs.Links.{IsWithinLimit};
ghost use Rattle.project_rtl.specs.Projects as Own;
ghost use Rattle.project_rtl.specs.Projects.{host_queue, link_queue, port_width};
ghost use Rattle.project_design.specs.Building.{AddsFifos, AreMade, HasFifos, IsLinkedFrom};

use crate::nodes::width;
use crate::ports::host_width;
use link_fifo::fifo;
use manager_links::{HostPort, Link, Links, Project};
use mx_base::{NoMemory, Text};
use rtl_ir::Module;
use std::alloc::Global;
use stream_graph::{Kernel, NodeId};

// The name of the FIFO of this number.
fn fifo_name(alloc: Global, number: usize) -> Result<Text, NoMemory>
    ensures { IfOk result (λ t. t ≡ Own.fifo_name number) }
{
    let name = format!(in alloc; "fifo${number}")?;
    Ok(Text::from_vec(name.into_bytes()))
}

// Adds a FIFO, whose number is its place among the modules.
fn add_fifo(alloc: Global, modules: &mut Vec<Module>, width: u8, depth: u32) -> Result<(), NoMemory>
    requires some { 1 ≤ width }
    requires narrow { width ≤ 128 }
    requires least { 2 ≤ depth }
    requires most { depth ≤ 65536 }
    ensures { OnOk result (AddsFifos (length modules.old.items)
        (record { width = width; depth = depth } ∷ []) modules.old.items modules.new.items) }
{
    let name = fifo_name(alloc, modules.len())?;
    modules.push(fifo(alloc, name, width, depth)?)?;
    Ok(())
}

// Adds a FIFO of two words for each of these streams of the host.
fn add_host_fifos(
    alloc: Global,
    modules: &mut Vec<Module>,
    kernels: &[Kernel],
    hosts: &[HostPort],
) -> Result<(), NoMemory>
    requires { All (HasType kernels.now) hosts.now }
    ensures { OnOk result (AddsFifos (length modules.old.items) (map host_queue hosts.now)
        modules.old.items modules.new.items) }
{
    for host in hosts {
        add_fifo(alloc, modules, host_width(kernels, host), 2)?;
    }
    Ok(())
}

// The width of the words of a link, 1 to 128 bits.
fn link_width(kernels: &[Kernel], link: &Link) -> u8
    requires { IsLinkedFrom kernels.now link.now }
    ensures is { result ≡ port_width kernels.now link.now.from }
    ensures some { 1 ≤ result }
    ensures at_most { result ≤ 128 }
{
    width(
        &kernels[link.from.kernel as usize],
        NodeId::new(link.from.node),
    )
}

// Adds a FIFO for each of these links, as deep as the link.
fn add_link_fifos(
    alloc: Global,
    modules: &mut Vec<Module>,
    kernels: &[Kernel],
    links: &[Link],
) -> Result<(), NoMemory>
    requires from { All (IsLinkedFrom kernels.now) links.now }
    requires least { All (λ (link : OneLink). 2 ≤ link.depth) links.now }
    requires most { All IsWithinLimit links.now }
    ensures { OnOk result (AddsFifos (length modules.old.items)
        (map (link_queue kernels.now) links.now) modules.old.items modules.new.items) }
{
    for link in links {
        add_fifo(alloc, modules, link_width(kernels, link), link.depth)?;
    }
    Ok(())
}

/// The FIFOs of all streams from the host, of all streams to it, and of all links.
pub(crate) fn fifos(
    alloc: Global,
    project: &Project,
    links: &Links,
) -> Result<Vec<Module>, NoMemory>
    requires { AreMade project.now links.now }
    ensures { IfOk result (λ modules. HasFifos project.now links.now modules.items) }
{
    let kernels = project.kernels();
    let mut modules = Vec::new(alloc);
    add_host_fifos(alloc, &mut modules, kernels, project.inputs())?;
    add_host_fifos(alloc, &mut modules, kernels, project.outputs())?;
    add_link_fifos(alloc, &mut modules, kernels, links.links.as_slice())?;
    Ok(modules)
}
