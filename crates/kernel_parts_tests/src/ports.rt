// Ports of a module that has ports alone.
ghost use Rattle.std.specs.Prelude.{◌≡◌, ◌≤◌, length, IfOk, OnOk};
ghost use Rattle.rtl_delays.specs.Partial.{HasPortsAlone};
ghost use Rattle.kernel_control.specs.Nets.{HasWidth, HasBitOutput};
ghost use Rattle.kernel_parts_tests.specs.Beds.{AddsPorts};

use mx_base::{NoMemory, Text};
use rtl_build::{Netlist, Signal};
use std::alloc::Global;

// A name of these bytes.
pub(crate) fn text(alloc: Global, bytes: &[u8]) -> Result<Text, NoMemory>
    ensures { IfOk result (λ t. t ≡ bytes.now) }
{
    Ok(Text::from_vec(bytes.to_vec(alloc)?))
}

// The module of this name that has nothing yet.
pub(crate) fn empty(alloc: Global, name: &[u8]) -> Result<Netlist, NoMemory>
    ensures { IfOk result HasPortsAlone }
{
    Ok(Netlist::new(alloc, text(alloc, name)?))
}

// A new input of this name and width.
pub(crate) fn add_input(
    alloc: Global,
    netlist: &mut Netlist,
    name: &[u8],
    width: u8,
) -> Result<Signal, NoMemory>
    requires alone { HasPortsAlone netlist.old }
    requires some { 1 ≤ width }
    requires at_most { width ≤ 128 }
    ensures adds { OnOk result (AddsPorts netlist.old netlist.new) }
    ensures signal { IfOk result (HasWidth netlist.new width) }
{
    let signal = netlist.input(text(alloc, name)?, width)?;
    Ok(signal)
}

// A new output of this name, of one bit.
pub(crate) fn add_output(
    alloc: Global,
    netlist: &mut Netlist,
    name: &[u8],
) -> Result<Signal, NoMemory>
    requires alone { HasPortsAlone netlist.old }
    ensures adds { OnOk result (AddsPorts netlist.old netlist.new) }
    ensures output { IfOk result (HasBitOutput netlist.new) }
    ensures net { IfOk result (λ s. s.net ≡ length netlist.old.nets) }
{
    let signal = netlist.output(text(alloc, name)?, 1)?;
    Ok(signal)
}
