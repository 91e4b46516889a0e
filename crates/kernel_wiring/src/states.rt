// The words of holds and of parts of chains.
ghost use Rattle.std.specs.Prelude.{◌≡◌, ◌/◌, ◌%◌, ◌^◌, ◌≤◌, ◌<◌, length, slice_get, Some, IfOk};
ghost use Rattle.rtl_build.specs.Signals.{HasSignal, Makes};
ghost use Rattle.counter_chains.specs.declared.digits.CounterDigit.{CounterDigit};
ghost use Rattle.counter_chains.specs.Chains.{bits_of, bits_below};
ghost use Rattle.kernel_control.specs.Nets.{HasWidth};
ghost use Rattle.kernel_wiring.specs.States.{MakesHeld};

use counter_chains::{CounterDigit, bits_below};
use kernel_control::active;
use mx_base::NoMemory;
use rtl_build::{Netlist, Signal};
use rtl_ir::Sign;

/// Adds the word of a counter of a chain, of so many bits, as a part of the chain's word.
pub(crate) fn part_word(
    netlist: &mut Netlist,
    chain: Signal,
    digits: &[CounterDigit],
    place: u32,
    bits: u8,
) -> Result<Signal, NoMemory>
    requires chain { HasSignal netlist.old chain }
    requires digit { (d : CounterDigit) × (slice_get digits.now place ≡ Some d) × (bits ≡ d.bits) }
    requires some { 1 ≤ bits }
    requires wide { chain.width ≡ bits_of digits.now }
    requires few { bits_of digits.now ≤ 128 }
    ensures { IfOk result (Makes netlist.old netlist.new 1 bits
        (λ v. v chain.net / 2 ^ bits_below digits.now place % 2 ^ bits)) }
{
    let low = bits_below(digits, place);
    netlist.part(chain, low + (bits - 1), low)
}

/// Adds the word of a hold: that of `from` where the position is that of a tick of the run, for a
/// node of this time, and `store` is 1, and else the one that is kept.
pub(crate) fn held_word(
    netlist: &mut Netlist,
    position: Signal,
    ticks: Signal,
    time: u64,
    store: Signal,
    from: Signal,
    kept: Signal,
) -> Result<Signal, NoMemory>
    requires position { HasWidth netlist.old 48 position }
    requires ticks { HasWidth netlist.old 48 ticks }
    requires small { time < 2 ^ 48 }
    requires store { HasWidth netlist.old 1 store }
    requires from { HasSignal netlist.old from }
    requires kept { HasWidth netlist.old from.width kept }
    ensures { IfOk result (MakesHeld netlist.old netlist.new position.net ticks.net time
        store.net from kept.net) }
{
    let active = active(netlist, position, ticks, time)?;
    let on = netlist.binary(Sign::And, active, store)?;
    netlist.choose(on, from, kept)
}
