// Registers that a reset edge clears.
ghost use Rattle.std.specs.Prelude.{◌≡◌, ◌<◌, ◌^◌, ◌&&◌, nat_eq, nat_le, false, IfOk, OnOk};
ghost use Rattle.rtl_ir.specs.Value.{bit};
ghost use Rattle.rtl_build.specs.Signals.{Makes};
ghost use Rattle.rtl_build.specs.Storage.{HasRegister};
ghost use Rattle.rtl_delays.specs.Steps.{IsSound, writes_reg};
ghost use Rattle.kernel_control.specs.Nets.{HasWidth};
ghost use Rattle.kernel_states.specs.Closing.{AreAdvanceNets, IsClearable, ClosesRegister};

use mx_base::NoMemory;
use mx_bits::Word;
use rtl_build::{Netlist, Signal};
use rtl_ir::Sign;

/// The nets by which a kernel's module knows where it stands.
#[derive(Clone, Copy, PartialEq, Eq)]
pub struct AdvanceNets {
    /// One bit: whether the kernel advances.
    pub run: Signal,
    /// One bit: whether the edge is a reset edge.
    pub reset: Signal,
    /// 48 bits: how often it has advanced.
    pub position: Signal,
}

/// Lets a register that nothing writes yet take a signal of its width where `enable` is 1. A reset
/// edge clears it.
pub(crate) fn close_register(
    netlist: &mut Netlist,
    register: Signal,
    enable: Signal,
    reset: Signal,
    value: Signal,
) -> Result<(), NoMemory>
    requires sound { IsSound netlist.old }
    requires register { HasRegister netlist.old register }
    requires unwritten { writes_reg register.net netlist.old.updates ≡ false }
    requires enable { HasWidth netlist.old 1 enable }
    requires reset { HasWidth netlist.old 1 reset }
    requires value { HasWidth netlist.old register.width value }
    ensures closes { OnOk result
        (ClosesRegister netlist.old netlist.new enable.net reset.net register.net 3) }
    ensures takes { OnOk result
        (IsClearable netlist.new enable.net reset.net value.net register.net) }
{
    let zero = netlist.literal(Word::new(0, register.width))?;
    let next = netlist.choose(reset, zero, value)?;
    let step = netlist.binary(Sign::Or, enable, reset)?;
    netlist.update(step, register, next)
}

/// One bit: 1 where the kernel advances at a position that is at least this one.
pub(crate) fn advances_from(
    netlist: &mut Netlist,
    nets: AdvanceNets,
    time: u64,
) -> Result<Signal, NoMemory>
    requires nets { AreAdvanceNets netlist.old nets }
    requires small { time < 2 ^ 48 }
    ensures { IfOk result (Makes netlist.old netlist.new 4 1
        (λ v. bit (nat_eq (v nets.run.net) 1 && nat_le time (v nets.position.net)))) }
{
    if time == 0 {
        return Ok(nets.run);
    }
    let start = netlist.literal(Word::new(time as u128, 48))?;
    let early = netlist.binary(Sign::Lt, nets.position, start)?;
    let begun = netlist.not(early)?;
    netlist.binary(Sign::And, nets.run, begun)
}
