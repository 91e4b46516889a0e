// Tests of a position.
ghost use Rattle.std.specs.Prelude.{◌+◌, ◌%◌, ◌<◌, ◌^◌, not, ◌&&◌, nat_lt, nat_eq, IfOk};
ghost use Rattle.rtl_ir.specs.Value.{bit};
ghost use Rattle.rtl_build.specs.Signals.{Makes};
ghost use Rattle.kernel_control.specs.Nets.{HasWidth, MayEnable, net_of};
ghost use Rattle.kernel_control.specs.Due.{is_in_ticks, is_let};

use mx_base::NoMemory;
use mx_bits::Word;
use rtl_build::{Netlist, Signal};
use rtl_ir::Sign;

// One bit: 1 where the position is that of a tick of the run, for a node of time 0. No position
// comes before the first one.
fn active_at_start(
    netlist: &mut Netlist,
    position: Signal,
    ticks: Signal,
) -> Result<Signal, NoMemory>
    requires position { HasWidth netlist.old 48 position }
    requires ticks { HasWidth netlist.old 48 ticks }
    ensures { IfOk result (Makes netlist.old netlist.new 6 1
        (λ v. bit (is_in_ticks (v position.net) (v ticks.net) 0))) }
{
    netlist.binary(Sign::Lt, position, ticks)
}

// The same for a node of this time.
fn active_behind(
    netlist: &mut Netlist,
    position: Signal,
    ticks: Signal,
    time: u64,
) -> Result<Signal, NoMemory>
    requires position { HasWidth netlist.old 48 position }
    requires ticks { HasWidth netlist.old 48 ticks }
    requires small { time < 2 ^ 48 }
    ensures { IfOk result (Makes netlist.old netlist.new 6 1
        (λ v. bit (is_in_ticks (v position.net) (v ticks.net) time))) }
{
    let start = netlist.literal(Word::new(time as u128, 48))?;
    let early = netlist.binary(Sign::Lt, position, start)?;
    let begun = netlist.not(early)?;
    let end = netlist.binary(Sign::Add, start, ticks)?;
    let before = netlist.binary(Sign::Lt, position, end)?;
    netlist.binary(Sign::And, begun, before)
}

/// One bit: 1 where the position is that of a tick of the run, for a node of this time. The
/// position and the number of ticks have 48 bits.
pub fn active(
    netlist: &mut Netlist,
    position: Signal,
    ticks: Signal,
    time: u64,
) -> Result<Signal, NoMemory>
    requires position { HasWidth netlist.old 48 position }
    requires ticks { HasWidth netlist.old 48 ticks }
    requires small { time < 2 ^ 48 }
    ensures { IfOk result (Makes netlist.old netlist.new 6 1
        (λ v. bit (is_in_ticks (v position.net) (v ticks.net) time))) }
{
    if time == 0 {
        active_at_start(netlist, position, ticks)
    } else {
        active_behind(netlist, position, ticks, time)
    }
}

// One bit: 1 where another one is, and the control, if there is one, is 1 too.
pub(crate) fn enabled(
    netlist: &mut Netlist,
    active: Signal,
    enable: Option<Signal>,
) -> Result<Signal, NoMemory>
    requires active { HasWidth netlist.old 1 active }
    requires enable { MayEnable netlist.old enable }
    ensures { IfOk result (Makes netlist.old netlist.new 1 1
        (λ v. bit (nat_eq (v active.net) 1 && is_let (net_of enable) v))) }
{
    match enable {
        Some(enable) => netlist.binary(Sign::And, active, enable),
        None => Ok(active),
    }
}

// One bit: 1 where the position is past the last tick of a node of this time.
pub(crate) fn past(
    netlist: &mut Netlist,
    position: Signal,
    ticks: Signal,
    time: u64,
) -> Result<Signal, NoMemory>
    requires position { HasWidth netlist.old 48 position }
    requires ticks { HasWidth netlist.old 48 ticks }
    requires small { time < 2 ^ 48 }
    ensures { IfOk result (Makes netlist.old netlist.new 4 1
        (λ v. bit (not (nat_lt (v position.net) ((time + v ticks.net) % 2 ^ 48))))) }
{
    let start = netlist.literal(Word::new(time as u128, 48))?;
    let end = netlist.binary(Sign::Add, start, ticks)?;
    let before = netlist.binary(Sign::Lt, position, end)?;
    netlist.not(before)
}
