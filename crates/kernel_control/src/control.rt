// The control of a kernel's module, from the handshakes of its ports.
ghost use Rattle.std.specs.Prelude.{◌≡◌, ◌+◌, ◌*◌, ◌≤◌, ℕ, true, Option, None, List, length, All, IfOk, OnOk};
ghost use Rattle.rtl_ir.specs.Value.{bit};
ghost use Rattle.rtl_build.specs.Signals.{Makes};
ghost use Rattle.rtl_delays.specs.Steps.{IsSound, writes_reg};
ghost use Rattle.rtl_delays.specs.Extends.{Extends, KeepsStill, LeavesFree};
ghost use Rattle.rtl_delays.specs.Stored.{stored_bits};
ghost use Rattle.stream_graph.specs.declared.node.Node.{Node};
ghost use Rattle.kernel_control.specs.Ports.{ModuleNets};
ghost use Rattle.kernel_control.specs.Nets.{HasWidth, IsHandshake, AreControlNets, told_nets, AreNetsOf};
ghost use Rattle.kernel_control.specs.Outputs.{AreUndriven, AreDriven, DrivesAtMost};
ghost use Rattle.kernel_control.specs.Due.{latest_time, AddsDuePorts};
ghost use Rattle.kernel_control.specs.Serving.{may_go, all_serve, IsDuePort};
ghost use Rattle.kernel_control.specs.Answers.{HasControl};
ghost use Rattle.kernel_control.specs.IsControl.{IsControl};

use crate::activity::{active, enabled, past};
use crate::answers::answer_all;
use crate::handshakes::{ControlNets, Handshake};
use crate::position::close_position;
use crate::serving::{DuePort, all_served};
use mx_base::NoMemory;
use rtl_build::{Netlist, Signal};
use rtl_ir::Sign;
use std::alloc::Global;

// The greatest time of these ports, and 0 where there are none.
fn latest(ports: &[Handshake]) -> u64
    ensures { result ≡ latest_time ports.now }
{
    let mut last: u64 = 0;
    for port in ports {
        last = last.max(port.time);
    }
    last
}

// For each port a bit: 1 where it is due.
fn due_ports(
    alloc: Global,
    netlist: &mut Netlist,
    position: Signal,
    ticks: Signal,
    ports: &[Handshake],
) -> Result<Vec<DuePort>, NoMemory>
    requires position { HasWidth netlist.old 48 position }
    requires ticks { HasWidth netlist.old 48 ticks }
    requires ports { All (IsHandshake netlist.old) ports.now }
    ensures { IfOk result (λ made.
        AddsDuePorts netlist.old netlist.new position.net ticks.net ports.now made.items) }
{
    let mut made = Vec::new(alloc);
    for port in ports {
        let active = active(netlist, position, ticks, port.time)?;
        let due = enabled(netlist, active, port.enable)?;
        made.push(DuePort {
            due,
            waits_for: port.waits_for,
            answer: port.answer,
        })?;
    }
    Ok(made)
}

// One bit: 1 where the kernel isn't held and hasn't ended, and all ports that are due are served.
fn advance(
    netlist: &mut Netlist,
    hold: Signal,
    ended: Signal,
    ports: &[DuePort],
) -> Result<Signal, NoMemory>
    requires hold { HasWidth netlist.old 1 hold }
    requires ended { HasWidth netlist.old 1 ended }
    requires ports { All (IsDuePort netlist.old) ports.now }
    ensures { IfOk result (Makes netlist.old netlist.new (3 * length ports.now + 3) 1
        (λ v. bit (all_serve (may_go (v hold.net) (v ended.net)) ports.now v))) }
{
    let free = netlist.not(hold)?;
    let live = netlist.not(ended)?;
    let both = netlist.binary(Sign::And, free, live)?;
    all_served(netlist, both, ports)
}

// Adds the bit that is 1 where the kernel advances, which is answered, and gives the outputs of the
// control their values.
fn tell_ports(
    alloc: Global,
    netlist: &mut Netlist,
    nets: ControlNets,
    ports: &[Handshake],
) -> Result<Signal, NoMemory>
    requires sound { IsSound netlist.old }
    requires nets { AreControlNets netlist.old nets }
    requires ports { All (IsHandshake netlist.old) ports.now }
    requires undriven { AreUndriven netlist.old (told_nets nets ports.now) }
    ensures { IfOk result (HasControl netlist.old netlist.new nets ports.now) }
{
    let made = due_ports(alloc, netlist, nets.position, nets.ticks, ports)?;
    let waiting = made.as_slice();
    let ended = past(netlist, nets.position, nets.ticks, latest(ports))?;
    let run = advance(netlist, nets.hold, ended, waiting)?;
    netlist.drive(nets.ended, ended)?;
    answer_all(netlist, run, waiting)?;
    Ok(run)
}

/// Adds the control of a kernel's module, of these ports: its inputs and then its outputs. It lets
/// the register `nets.position` be the position, and gives values to `nets.ended` and to the
/// outputs that tell the ports. Answered is the bit that is 1 where the kernel advances: where it
/// isn't held and hasn't ended, each due input has a word and each due output has room.
pub fn add_control(
    alloc: Global,
    netlist: &mut Netlist,
    nets: ControlNets,
    ports: &[Handshake],
) -> Result<Signal, NoMemory>
    requires sound { IsSound netlist.old }
    requires nets { AreControlNets netlist.old nets }
    requires ports { All (IsHandshake netlist.old) ports.now }
    requires undriven { AreUndriven netlist.old (told_nets nets ports.now) }
    ensures extends { OnOk result (Extends netlist.old netlist.new) }
    ensures still { IfOk result (λ run. KeepsStill netlist.old netlist.new run.net nets.reset.net) }
    ensures others { OnOk result (LeavesFree netlist.old netlist.new nets.position.net None) }
    ensures written { OnOk result (writes_reg nets.position.net netlist.new.updates ≡ true) }
    ensures stored { OnOk result (stored_bits netlist.new ≡ stored_bits netlist.old) }
    ensures undriven { OnOk result
        (DrivesAtMost netlist.old netlist.new (told_nets nets ports.now)) }
    ensures driven { OnOk result (AreDriven netlist.new (told_nets nets ports.now)) }
    ensures nets { OnOk result
        (length netlist.new.nets ≤ length netlist.old.nets + 11 * length ports.now + 12) }
    ensures run { IfOk result (HasWidth netlist.new 1) }
    ensures control { IfOk result (λ run. (nodes : List Node) (times : ℕ → ℕ)
        (controls : ℕ → Option ℕ) (q : ModuleNets) → AreNetsOf nodes times controls q nets ports.now
        → IsControl netlist.new nodes times controls q run.net) }
{
    let run = tell_ports(alloc, netlist, nets, ports)?;
    close_position(netlist, nets.position, run, nets.reset)?;
    Ok(run)
}
