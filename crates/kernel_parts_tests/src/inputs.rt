// Inputs for delays.
ghost use Rattle.std.specs.Prelude.{IfOk, OnOk};
ghost use Rattle.rtl_delays.specs.Partial.{HasPortsAlone};
ghost use Rattle.kernel_parts_tests.specs.Beds.{HasInputs};

use crate::ports::add_input;
use crate::signals::Inputs;
use mx_base::NoMemory;
use rtl_build::Netlist;
use std::alloc::Global;

// Adds a clock and the inputs: nets 0 to 4.
pub(crate) fn add_inputs(alloc: Global, netlist: &mut Netlist) -> Result<Inputs, NoMemory>
    requires alone { HasPortsAlone netlist.old }
    ensures alone { OnOk result (HasPortsAlone netlist.new) }
    ensures has { IfOk result (HasInputs netlist.new) }
{
    add_input(alloc, netlist, b"clk", 1)?;
    let reset = add_input(alloc, netlist, b"reset", 1)?;
    let run = add_input(alloc, netlist, b"run", 1)?;
    let narrow = add_input(alloc, netlist, b"narrow", 8)?;
    let wide = add_input(alloc, netlist, b"wide", 16)?;
    Ok(Inputs {
        run,
        reset,
        narrow,
        wide,
    })
}
