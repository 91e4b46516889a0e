// The module of a control of one input and one output.
ghost use Rattle.std.specs.Prelude.{◌≡◌, ◌≤◌, ◌^◌, length, IfOk, OnOk};
ghost use Rattle.rtl_delays.specs.Partial.{HasPortsAlone};
ghost use Rattle.kernel_control.specs.Nets.{IsHandshake, MayEnable};
ghost use Rattle.kernel_parts_tests.specs.Beds.{AddsPorts, HasFrame};

use crate::ports::{add_input, add_output, empty, text};
use crate::signals::Frame;
use kernel_control::{ControlNets, Handshake, add_control};
use mx_base::NoMemory;
use rtl_build::{Netlist, Signal};
use rtl_ir::Module;
use std::alloc::Global;

// Adds a clock and the frame: nets 0 to 4.
fn add_frame(alloc: Global, netlist: &mut Netlist) -> Result<Frame, NoMemory>
    requires alone { HasPortsAlone netlist.old }
    ensures adds { OnOk result (HasPortsAlone netlist.new) }
    ensures has { IfOk result (HasFrame netlist.new) }
{
    add_input(alloc, netlist, b"clk", 1)?;
    let reset = add_input(alloc, netlist, b"reset", 1)?;
    let ticks = add_input(alloc, netlist, b"ticks", 48)?;
    let hold = add_input(alloc, netlist, b"hold", 1)?;
    let ended = add_output(alloc, netlist, b"ended")?;
    Ok(Frame {
        reset,
        ticks,
        hold,
        ended,
    })
}

// Adds the two nets of a port of this time and with this control.
fn add_port(
    alloc: Global,
    netlist: &mut Netlist,
    waits_for: &[u8],
    answer: &[u8],
    time: u64,
    enable: Option<Signal>,
) -> Result<Handshake, NoMemory>
    requires alone { HasPortsAlone netlist.old }
    requires small { time ≤ 2 ^ 46 }
    requires enable { MayEnable netlist.old enable }
    ensures adds { OnOk result (AddsPorts netlist.old netlist.new) }
    ensures handshake { IfOk result (IsHandshake netlist.new) }
    ensures answer { IfOk result (λ h. length netlist.old.nets ≤ h.answer.net) }
{
    let waits_for = add_input(alloc, netlist, waits_for, 1)?;
    let answer = add_output(alloc, netlist, answer)?;
    Ok(Handshake {
        time,
        enable,
        waits_for,
        answer,
    })
}

// Adds the control of an input at time 0, which has a control itself, and an output at time 2.
fn add_controls(alloc: Global, netlist: &mut Netlist) -> Result<(), NoMemory>
    requires alone { HasPortsAlone netlist.old }
{
    let frame = add_frame(alloc, netlist)?;
    let enable = add_input(alloc, netlist, b"enable", 1)?;
    let taken = add_port(alloc, netlist, b"x$valid", b"x$ready", 0, Some(enable))?;
    let given = add_port(alloc, netlist, b"y$ready", b"y$valid", 2, None)?;
    let position = netlist.register(text(alloc, b"position")?, 48)?;
    let nets = ControlNets {
        position,
        reset: frame.reset,
        ticks: frame.ticks,
        hold: frame.hold,
        ended: frame.ended,
    };
    add_control(alloc, netlist, nets, &[taken, given])?;
    Ok(())
}

// The module of that control.
pub(crate) fn control_module(alloc: Global) -> Result<Module, NoMemory> {
    let mut netlist = empty(alloc, b"control")?;
    add_controls(alloc, &mut netlist)?;
    Ok(netlist.finish())
}
