// Registers that are one advance behind a signal.
ghost use Rattle.std.specs.Prelude.{◌≡◌, ℕ, ◌+◌, ◌≤◌, true, false, None, length, IfOk, OnOk};
ghost use Rattle.rtl_build.specs.Signals.{HasSignal};
ghost use Rattle.rtl_build.specs.Storage.{HasRegister, AddsRegister, with_update};
ghost use Rattle.rtl_ir.specs.declared.design.Target.TheVariants as targets;
ghost use Rattle.rtl_delays.specs.Names.{register_name};
ghost use Rattle.rtl_delays.specs.Steps.{IsSound, writes_reg};
ghost use Rattle.rtl_delays.specs.Extends.{Extends, KeepsStill, LeavesFree};
ghost use Rattle.rtl_delays.specs.Delays.{IsDelay, of_net};
ghost use Rattle.rtl_delays.specs.Stored.{stored_bits};

use crate::naming::register_name;
use mx_base::NoMemory;
use rtl_build::{Netlist, Signal};
use std::alloc::Global;

/// A new register of 1 to 128 bits that nothing writes yet. It is named `r` and then its number
/// among the nets.
pub fn start_register(alloc: Global, netlist: &mut Netlist, width: u8) -> Result<Signal, NoMemory>
    requires sound { IsSound netlist.old }
    requires some { 1 ≤ width }
    requires at_most { width ≤ 128 }
    ensures register { IfOk result
        (AddsRegister netlist.old netlist.new (register_name (length netlist.old.nets)) width) }
    ensures extends { OnOk result (Extends netlist.old netlist.new) }
    ensures stored { OnOk result (stored_bits netlist.new ≡ stored_bits netlist.old + width) }
{
    let name = register_name(alloc, netlist.module().nets.len())?;
    netlist.register(name, width)
}

/// Lets a register that nothing writes yet follow a signal of its width: where `run`, of one bit,
/// is 1 it takes the signal's word, so that it has what the signal had one advance ago.
pub fn follow(
    netlist: &mut Netlist,
    register: Signal,
    run: Signal,
    from: Signal,
) -> Result<(), NoMemory>
    requires sound { IsSound netlist.old }
    requires register { HasRegister netlist.old register }
    requires free { writes_reg register.net netlist.old.updates ≡ false }
    requires run { HasSignal netlist.old run }
    requires bit { run.width ≡ 1 }
    requires from { HasSignal netlist.old from }
    requires same { from.width ≡ register.width }
    ensures is { OnOk result (netlist.new ≡ with_update netlist.old
        (record { enable = run.net; target = targets.Reg register.net; value = from.net })) }
    ensures extends { OnOk result (Extends netlist.old netlist.new) }
    ensures still { OnOk result
        ((reset : ℕ) → KeepsStill netlist.old netlist.new run.net reset) }
    ensures others { OnOk result (LeavesFree netlist.old netlist.new register.net None) }
    ensures stored { OnOk result (stored_bits netlist.new ≡ stored_bits netlist.old) }
    ensures written { OnOk result (writes_reg register.net netlist.new.updates ≡ true) }
    ensures delay { OnOk result
        ((reset : ℕ) → IsDelay netlist.new run.net reset (of_net from.net) register.net 1) }
{
    netlist.update(run, register, from)
}
