// Modules of delays.
ghost use Rattle.std.specs.Prelude.{◌≤◌, ◌^◌, OnOk};
ghost use Rattle.rtl_delays.specs.Partial.{HasPortsAlone};
ghost use Rattle.kernel_parts_tests.specs.Beds.{HasInputs};

use crate::inputs::add_inputs;
use crate::ports::empty;
use crate::signals::Inputs;
use mx_base::NoMemory;
use rtl_build::Netlist;
use rtl_delays::{close_element, close_ring, follow, start_element, start_register, start_ring};
use rtl_ir::Module;
use std::alloc::Global;

// Adds a register of 8 bits that is one advance behind an input.
fn add_register(alloc: Global, netlist: &mut Netlist) -> Result<(), NoMemory>
    requires alone { HasPortsAlone netlist.old }
{
    let inputs = add_inputs(alloc, netlist)?;
    let register = start_register(alloc, netlist, 8)?;
    follow(netlist, register, inputs.run, inputs.narrow)
}

// A register of 8 bits that is one advance behind an input.
pub(crate) fn register_module(alloc: Global) -> Result<Module, NoMemory> {
    let mut netlist = empty(alloc, b"register")?;
    add_register(alloc, &mut netlist)?;
    Ok(netlist.finish())
}

// Adds a ring of 5 words of 8 bits.
fn add_ring(alloc: Global, netlist: &mut Netlist) -> Result<(), NoMemory>
    requires alone { HasPortsAlone netlist.old }
{
    let inputs = add_inputs(alloc, netlist)?;
    let ring = start_ring(alloc, netlist, 8, 5)?;
    close_ring(netlist, ring, inputs.run, inputs.reset, inputs.narrow)
}

// A ring of 5 words of 8 bits.
pub(crate) fn ring_module(alloc: Global) -> Result<Module, NoMemory> {
    let mut netlist = empty(alloc, b"ring")?;
    add_ring(alloc, &mut netlist)?;
    Ok(netlist.finish())
}

// Adds a delay of so many advances behind the input of 8 bits.
fn add_delay(
    alloc: Global,
    netlist: &mut Netlist,
    inputs: Inputs,
    advances: u32,
) -> Result<(), NoMemory>
    requires inputs { HasInputs netlist.old inputs }
    requires advances { 1 ≤ advances }
    requires few { advances ≤ 2 ^ 28 }
    ensures { OnOk result (HasInputs netlist.new inputs) }
{
    let element = start_element(alloc, netlist, 8, advances)?;
    close_element(netlist, element, inputs.run, inputs.reset, inputs.narrow)
}

// Adds delays of 1 and of 5 advances, both of 8 bits.
fn add_elements(alloc: Global, netlist: &mut Netlist) -> Result<(), NoMemory>
    requires alone { HasPortsAlone netlist.old }
{
    let inputs = add_inputs(alloc, netlist)?;
    add_delay(alloc, netlist, inputs, 1)?;
    add_delay(alloc, netlist, inputs, 5)
}

// Delays of 1 and of 5 advances, both of 8 bits.
pub(crate) fn element_module(alloc: Global) -> Result<Module, NoMemory> {
    let mut netlist = empty(alloc, b"elements")?;
    add_elements(alloc, &mut netlist)?;
    Ok(netlist.finish())
}
