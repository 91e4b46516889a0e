// The ports of single nodes.
ghost use Rattle.std.specs.Prelude.{◌≡◌, ◌+◌, ◌≤◌, ◌++◌, ◌∷◌, [], List, ℕ, length, IfOk, OnOk};
ghost use Rattle.rtl_ir.specs.Ports.{input_port, output_port, host_input_ports, host_output_ports};
ghost use Rattle.rtl_delays.specs.Partial.{HasPortsAlone};
ghost use Rattle.kernel_control.specs.Ports.{scalar_ports};
ghost use Rattle.kernel_ports.specs.Added.{AddsPorts, signal_at, scalar_at, stream_at};

use crate::signals::{NodeSignal, StreamSignals};
use mx_base::{NoMemory, Text};
use rtl_build::{Netlist, Signal};
use std::alloc::Global;

// A name of three pieces.
pub(crate) fn joined(
    alloc: Global,
    front: &[u8],
    middle: &[u8],
    back: &[u8],
) -> Result<Text, NoMemory>
    ensures { IfOk result (λ t. t ≡ front.now ++ middle.now ++ back.now) }
{
    let mut name = Text::from_vec(front.to_vec(alloc)?);
    name.append(middle)?;
    name.append(back)?;
    Ok(name)
}

// A new input, the last port.
fn add_input(netlist: &mut Netlist, name: Text, width: u8) -> Result<Signal, NoMemory>
    requires alone { HasPortsAlone netlist.old }
    requires some { 1 ≤ width }
    requires at_most { width ≤ 128 }
    ensures port { OnOk result (AddsPorts netlist.old netlist.new (input_port name width ∷ [])) }
    ensures signal { IfOk result (λ s. s ≡ signal_at (length netlist.old.nets) width) }
{
    netlist.input(name, width)
}

// A new output, the last port.
fn add_output(netlist: &mut Netlist, name: Text, width: u8) -> Result<Signal, NoMemory>
    requires alone { HasPortsAlone netlist.old }
    requires some { 1 ≤ width }
    requires at_most { width ≤ 128 }
    ensures port { OnOk result (AddsPorts netlist.old netlist.new (output_port name width ∷ [])) }
    ensures signal { IfOk result (λ s. s ≡ signal_at (length netlist.old.nets) width) }
{
    netlist.output(name, width)
}

// A new input of a name that the module has for itself.
pub(crate) fn add_own_input(
    alloc: Global,
    netlist: &mut Netlist,
    name: &[u8],
    width: u8,
) -> Result<Signal, NoMemory>
    requires alone { HasPortsAlone netlist.old }
    requires some { 1 ≤ width }
    requires at_most { width ≤ 128 }
    ensures port { OnOk result
        (AddsPorts netlist.old netlist.new (input_port name.now width ∷ [])) }
    ensures signal { IfOk result (λ s. s ≡ signal_at (length netlist.old.nets) width) }
{
    add_input(netlist, Text::from_vec(name.to_vec(alloc)?), width)
}

// A new output of a name that the module has for itself, of one bit.
pub(crate) fn add_own_output(
    alloc: Global,
    netlist: &mut Netlist,
    name: &[u8],
) -> Result<Signal, NoMemory>
    requires { HasPortsAlone netlist.old }
    ensures port { OnOk result (AddsPorts netlist.old netlist.new (output_port name.now 1 ∷ [])) }
    ensures signal { IfOk result (λ s. s ≡ signal_at (length netlist.old.nets) 1) }
{
    add_output(netlist, Text::from_vec(name.to_vec(alloc)?), 1)
}

// The port of a scalar.
pub(crate) fn add_scalar(
    alloc: Global,
    netlist: &mut Netlist,
    node: u32,
    name: &[u8],
    width: u8,
) -> Result<NodeSignal, NoMemory>
    requires alone { HasPortsAlone netlist.old }
    requires some { 1 ≤ width }
    requires at_most { width ≤ 128 }
    ensures ports { OnOk result
        (AddsPorts netlist.old netlist.new (scalar_ports ((name.now, width) ∷ []))) }
    ensures signal { IfOk result (λ s. s ≡ scalar_at node (length netlist.old.nets) width) }
{
    let signal = add_input(netlist, joined(alloc, b"scalar$", name, b"")?, width)?;
    Ok(NodeSignal { node, signal })
}

// The data, valid and ready of an input.
pub(crate) fn add_input_stream(
    alloc: Global,
    netlist: &mut Netlist,
    node: u32,
    name: &[u8],
    width: u8,
) -> Result<StreamSignals, NoMemory>
    requires alone { HasPortsAlone netlist.old }
    requires some { 1 ≤ width }
    requires at_most { width ≤ 128 }
    ensures ports { OnOk result
        (AddsPorts netlist.old netlist.new (host_input_ports ((name.now, width) ∷ []))) }
    ensures signals { IfOk result (λ s. s ≡ stream_at node (length netlist.old.nets) width) }
{
    let word = add_input(netlist, joined(alloc, b"in$", name, b"$data")?, width)?;
    let valid = add_input(netlist, joined(alloc, b"in$", name, b"$valid")?, 1)?;
    let ready = add_output(netlist, joined(alloc, b"in$", name, b"$ready")?, 1)?;
    Ok(StreamSignals {
        node,
        word,
        valid,
        ready,
    })
}

// The data, valid and ready of an output.
pub(crate) fn add_output_stream(
    alloc: Global,
    netlist: &mut Netlist,
    node: u32,
    name: &[u8],
    width: u8,
) -> Result<StreamSignals, NoMemory>
    requires alone { HasPortsAlone netlist.old }
    requires some { 1 ≤ width }
    requires at_most { width ≤ 128 }
    ensures ports { OnOk result
        (AddsPorts netlist.old netlist.new (host_output_ports ((name.now, width) ∷ []))) }
    ensures signals { IfOk result (λ s. s ≡ stream_at node (length netlist.old.nets) width) }
{
    let word = add_output(netlist, joined(alloc, b"out$", name, b"$data")?, width)?;
    let valid = add_output(netlist, joined(alloc, b"out$", name, b"$valid")?, 1)?;
    let ready = add_input(netlist, joined(alloc, b"out$", name, b"$ready")?, 1)?;
    Ok(StreamSignals {
        node,
        word,
        valid,
        ready,
    })
}
