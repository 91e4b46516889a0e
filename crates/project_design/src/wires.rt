// The nets of the top module that are no ports.
ghost use Rattle.std.specs.Prelude.{◌≡◌, ◌≤◌, ◌++◌, ◌*◌, ◌-◌, ◌+◌, length, replicate, IfOk, OnOk};
ghost use Rattle.std.specs.List.{flat_map};
ghost use Rattle.link_fifo.specs.Netlist.{wires_from};
ghost use Rattle.project_rtl.specs.Tops.{stream_widths, block_widths, wire_widths};
ghost use Rattle.project_design.specs.Nodes.{AreWithin};

use crate::nodes::{PortNodes, width};
use link_fifo::add_wires;
use manager_links::Project;
use mx_base::{List, NoMemory};
use rtl_ir::Net;
use std::alloc::Global;
use stream_graph::{Kernel, NodeId};

// The data, valid and ready of these nodes.
fn add_streams(widths: &mut Vec<u8>, kernel: &Kernel, nodes: &[NodeId]) -> Result<(), NoMemory>
    requires { AreWithin kernel.now.nodes nodes.now }
    ensures { OnOk result (widths.new.items
        ≡ widths.old.items ++ stream_widths kernel.now.nodes nodes.now) }
{
    for node in nodes {
        widths.extend_from_slice(&[width(kernel, *node), 1, 1])?;
    }
    Ok(())
}

// The block of a kernel.
fn add_block(alloc: Global, widths: &mut Vec<u8>, kernel: &Kernel) -> Result<(), NoMemory>
    ensures { OnOk result (widths.new.items ≡ widths.old.items ++ block_widths kernel.now) }
{
    let ports = PortNodes::of(alloc, kernel)?;
    add_streams(widths, kernel, ports.inputs.as_slice())?;
    add_streams(widths, kernel, ports.outputs.as_slice())?;
    widths.push(1)?;
    Ok(())
}

// The blocks of these kernels.
fn add_blocks(alloc: Global, widths: &mut Vec<u8>, kernels: &[Kernel]) -> Result<(), NoMemory>
    ensures { OnOk result (widths.new.items
        ≡ widths.old.items ++ flat_map block_widths kernels.now) }
{
    for kernel in kernels {
        add_block(alloc, widths, kernel)?;
    }
    Ok(())
}

// So many wires of one bit.
fn add_bits(widths: &mut Vec<u8>, count: usize) -> Result<(), NoMemory>
    ensures { OnOk result (widths.new.items ≡ widths.old.items ++ replicate count 1) }
{
    for _bit in 0..count {
        widths.push(1)?;
    }
    Ok(())
}

// The widths of all of them.
fn widths_of(alloc: Global, project: &Project) -> Result<Vec<u8>, NoMemory>
    ensures { IfOk result (λ widths. widths.items ≡ wire_widths project.now) }
{
    let mut widths = Vec::new(alloc);
    add_blocks(alloc, &mut widths, project.kernels())?;
    add_bits(&mut widths, project.kernels().len() - 1)?;
    add_bits(&mut widths, 2 * project.outputs().len())?;
    Ok(widths)
}

/// Adds the blocks of the kernels and the wires of `done`.
pub(crate) fn add_all_wires(
    alloc: Global,
    nets: &mut List<Net>,
    project: &Project,
) -> Result<(), NoMemory>
    ensures { OnOk result (nets.new
        ≡ nets.old ++ wires_from (length nets.old) (wire_widths project.now)) }
{
    let widths = widths_of(alloc, project)?;
    add_wires(alloc, nets, widths.as_slice())
}
