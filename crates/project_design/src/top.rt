// The top module.
ghost use Rattle.std.specs.Prelude.{◌≡◌, ◌≤◌, ◌+◌, ◌*◌, ◌^◌, length, IfOk};
ghost use Rattle.project_rtl.specs.Tops as Own;
ghost use Rattle.project_rtl.specs.Tops.{top_module};
ghost use Rattle.project_design.specs.Building.{AreBlocks, ArePlaces};

use crate::blocks::Blocks;
use crate::done::done_assigns;
use crate::instances::instances_of;
use crate::places::Places;
use crate::ports::ports_alone;
use crate::wires::add_all_wires;
use manager_links::{HostPort, Project};
use mx_base::{List, NoMemory};
use rtl_ir::{Assign, Module};
use std::alloc::Global;

// The nets that say whether the kernels behind the first one have ended.
fn ended_nets(alloc: Global, blocks: &Blocks) -> Result<Vec<u32>, NoMemory>
    requires { AreBlocks blocks.now }
    ensures { IfOk result (λ nets. nets.items ≡ Own.ended_nets blocks.now.project.now) }
{
    let mut nets = Vec::new(alloc);
    for number in 1..blocks.each.len() {
        nets.push(blocks.each[number].ended_net())?;
    }
    Ok(nets)
}

// The nets that say whether these streams to the host are valid, the first of which begins with this
// port.
fn valid_nets(alloc: Global, first: u32, hosts: &[HostPort]) -> Result<Vec<u32>, NoMemory>
    requires { first + 3 * length hosts.now ≤ 2 ^ 24 }
    ensures { IfOk result (λ nets. nets.items ≡ Own.valid_nets first hosts.now) }
{
    let mut nets = Vec::new(alloc);
    let mut port = first;
    for _host in hosts {
        nets.push(port + 1)?;
        port += 3;
    }
    Ok(nets)
}

// The assignments of `done`.
fn assigns(alloc: Global, blocks: &Blocks, places: Places) -> Result<List<Assign>, NoMemory>
    requires blocks { AreBlocks blocks.now }
    requires places { ArePlaces blocks.now.project.now places }
    ensures { IfOk result (λ l. l ≡ Own.done_assigns blocks.now.project.now) }
{
    let ended = ended_nets(alloc, blocks)?;
    let valids = valid_nets(alloc, places.outputs, blocks.project.outputs())?;
    let next = blocks.each[blocks.each.len() - 1].ended_net() + 1;
    let first = blocks.each[0].ended_net();
    done_assigns(
        alloc,
        places.done,
        next,
        first,
        ended.as_slice(),
        valids.as_slice(),
    )
}

/// The top module of the design of a project.
pub(crate) fn top(alloc: Global, project: &Project) -> Result<Module, NoMemory>
    ensures { IfOk result (λ m. m ≡ top_module project.now) }
{
    let mut top = ports_alone(alloc, project)?.finish();
    let places = Places::of(project, top.nets.len());
    let blocks = Blocks::of(alloc, project, places.scalars, places.done + 1)?;
    add_all_wires(alloc, &mut top.nets, project)?;
    top.assigns = assigns(alloc, &blocks, places)?;
    top.instances = instances_of(alloc, &blocks, places)?;
    Ok(top)
}
