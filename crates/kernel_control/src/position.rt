// The position of a kernel's module.
ghost use Rattle.std.specs.Prelude.{◌≡◌, ◌+◌, ◌≤◌, true, false, None, length, OnOk};
ghost use Rattle.rtl_delays.specs.Steps.{IsSound, writes_reg};
ghost use Rattle.rtl_delays.specs.Extends.{Extends, KeepsStill, LeavesFree};
ghost use Rattle.rtl_delays.specs.Driven.{KeepsUndriven};
ghost use Rattle.rtl_delays.specs.Stored.{stored_bits};
ghost use Rattle.kernel_control.specs.Nets.{HasWidth, HasWideRegister};
ghost use Rattle.kernel_control.specs.Position.{IsPosition};

use mx_base::NoMemory;
use mx_bits::Word;
use rtl_build::{Netlist, Signal};
use rtl_ir::Sign;

// Lets a register of 48 bits be the position: a reset edge clears it, and it is raised by 1 where
// `run` is 1.
pub(crate) fn close_position(
    netlist: &mut Netlist,
    position: Signal,
    run: Signal,
    reset: Signal,
) -> Result<(), NoMemory>
    requires sound { IsSound netlist.old }
    requires position { HasWideRegister netlist.old position }
    requires unwritten { writes_reg position.net netlist.old.updates ≡ false }
    requires run { HasWidth netlist.old 1 run }
    requires reset { HasWidth netlist.old 1 reset }
    ensures extends { OnOk result (Extends netlist.old netlist.new) }
    ensures still { OnOk result (KeepsStill netlist.old netlist.new run.net reset.net) }
    ensures others { OnOk result (LeavesFree netlist.old netlist.new position.net None) }
    ensures written { OnOk result (writes_reg position.net netlist.new.updates ≡ true) }
    ensures stored { OnOk result (stored_bits netlist.new ≡ stored_bits netlist.old) }
    ensures undriven { OnOk result (KeepsUndriven netlist.old netlist.new) }
    ensures nets { OnOk result (length netlist.new.nets ≤ length netlist.old.nets + 5) }
    ensures position { OnOk result (IsPosition netlist.new position.net run.net reset.net) }
{
    let zero = netlist.literal(Word::new(0, 48))?;
    let one = netlist.literal(Word::new(1, 48))?;
    let more = netlist.binary(Sign::Add, position, one)?;
    let next = netlist.choose(reset, zero, more)?;
    let step = netlist.binary(Sign::Or, run, reset)?;
    netlist.update(step, position, next)
}
