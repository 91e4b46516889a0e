// The control of a kernel's module.
ghost use Rattle.std.specs.Prelude.{◌≡◌, slice_index, All, IfOk};
ghost use Rattle.rtl_delays.specs.Steps.{IsSound};
ghost use Rattle.kernel_control.specs.Nets.{IsHandshake, AreControlNets, told_nets};
ghost use Rattle.kernel_control.specs.Outputs.{AreUndriven};
ghost use Rattle.kernel_wiring.specs.Timing.{time_at};
ghost use Rattle.kernel_rtl.specs.Handshakes.{IsTimed, enable_at, handshakes_of};
ghost use Rattle.kernel_rtl.specs.Handshakes.{control_nets, AddsControl};

use kernel_control::{ControlNets, Handshake, add_control};
use kernel_ports::KernelSignals;
use kernel_wiring::Timing;
use mx_base::NoMemory;
use rtl_build::{Netlist, Signal};
use std::alloc::Global;

// The handshakes of all inputs and then of all outputs, by the times of nodes and the signals of
// their controls.
fn handshakes(
    alloc: Global,
    ports: &KernelSignals,
    times: &[u64],
    enables: &[Option<Signal>],
) -> Result<Vec<Handshake>, NoMemory>
    requires inputs { All (IsTimed times.now enables.now) ports.now.inputs }
    requires outputs { All (IsTimed times.now enables.now) ports.now.outputs }
    ensures { IfOk result (λ made. made.items
        ≡ handshakes_of (slice_index times.now) (enable_at enables.now) ports.now) }
{
    let mut made = Vec::new(alloc);
    for input in ports.inputs.as_slice() {
        made.push(Handshake {
            time: times[input.node as usize],
            enable: enables[input.node as usize],
            waits_for: input.valid,
            answer: input.ready,
        })?;
    }
    for output in ports.outputs.as_slice() {
        made.push(Handshake {
            time: times[output.node as usize],
            enable: enables[output.node as usize],
            waits_for: output.ready,
            answer: output.valid,
        })?;
    }
    Ok(made)
}

/// Adds the control: the bit that is 1 where the kernel advances, which is answered, the values of
/// the outputs that tell its ports, and the steps of the position. `enables` has for each node the
/// signal of its control, if it is a port with one.
pub(crate) fn control(
    alloc: Global,
    netlist: &mut Netlist,
    ports: &KernelSignals,
    timing: &Timing,
    enables: &[Option<Signal>],
) -> Result<Signal, NoMemory>
    requires sound { IsSound netlist.old }
    requires inputs { All (IsTimed timing.now.times enables.now) ports.now.inputs }
    requires outputs { All (IsTimed timing.now.times enables.now) ports.now.outputs }
    requires nets { AreControlNets netlist.old (control_nets ports.now timing.now.position) }
    requires ports { All (IsHandshake netlist.old)
        (handshakes_of (time_at timing.now) (enable_at enables.now) ports.now) }
    requires undriven { AreUndriven netlist.old
        (told_nets (control_nets ports.now timing.now.position)
        (handshakes_of (time_at timing.now) (enable_at enables.now) ports.now)) }
    ensures { IfOk result (AddsControl netlist.old netlist.new
        (control_nets ports.now timing.now.position)
        (handshakes_of (time_at timing.now) (enable_at enables.now) ports.now)) }
{
    let made = handshakes(alloc, ports, timing.times.as_slice(), enables)?;
    let nets = ControlNets {
        position: timing.position,
        reset: ports.reset,
        ticks: ports.ticks,
        hold: ports.hold,
        ended: ports.ended,
    };
    add_control(alloc, netlist, nets, made.as_slice())
}
