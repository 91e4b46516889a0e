// How counters step.
ghost use Rattle.std.specs.Prelude.{◌≡◌, ◌+◌, ◌*◌, ◌≤◌, ◌<◌, ◌^◌, ◌&&◌, nat_eq, if◌then◌else◌};
ghost use Rattle.std.specs.Prelude.{false, length, All, IfOk, OnOk};
ghost use Rattle.rtl_build.specs.Signals.{Makes, HasSignal};
ghost use Rattle.rtl_build.specs.Storage.{HasRegister};
ghost use Rattle.rtl_delays.specs.Steps.{IsSound, writes_reg};
ghost use Rattle.counter_chains.specs.Digits.{IsDigit};
ghost use Rattle.counter_chains.specs.Chains.{bits_of};
ghost use Rattle.kernel_refinement.specs.States.{IsStepping};
ghost use Rattle.kernel_states.specs.Stepping.{state_after, HasCounter, HasLater};
ghost use Rattle.kernel_states.specs.Stepping.{MakesCounter, MakesLater};
ghost use Rattle.kernel_states.specs.Closing.{AreAdvanceNets, ClosesRegister};

use crate::registers::{AdvanceNets, advances_from, close_register};
use counter_chains::{CounterDigit, chains_by_ticks};
use mx_base::NoMemory;
use mx_bits::Word;
use rtl_build::{Netlist, Signal};
use rtl_ir::Sign;

// A counter in its chain: its word, whether that is its last one, and the word after it.
#[derive(Clone, Copy)]
struct Stepped {
    word: Signal,
    is_last: Signal,
    next: Signal,
}

// The words after this one of the later counters of a chain, and whether all of them are at their
// ends.
#[derive(Clone, Copy)]
struct Later {
    next: Signal,
    ended: Signal,
}

// The wires of a counter whose word stands in a state from this bit on.
fn counter_wires(
    netlist: &mut Netlist,
    state: Signal,
    digit: CounterDigit,
    low: u8,
) -> Result<Stepped, NoMemory>
    requires state { HasSignal netlist.old state }
    requires digit { IsDigit digit }
    requires within { low + digit.bits ≤ state.width }
    ensures { IfOk result (MakesCounter netlist.old netlist.new digit low state.net) }
{
    chains_by_ticks();
    let bits = digit.bits;
    let word = netlist.part(state, low + (bits - 1), low)?;
    let last = netlist.literal(Word::new(digit.last, bits))?;
    let is_last = netlist.binary(Sign::Eq, word, last)?;
    let zero = netlist.literal(Word::new(0, bits))?;
    let inc = u128::from(digit.inc) & (u128::MAX >> (128 - u32::from(bits)));
    let inc = netlist.literal(Word::new(inc, bits))?;
    let more = netlist.binary(Sign::Add, word, inc)?;
    let next = netlist.choose(is_last, zero, more)?;
    Ok(Stepped {
        word,
        is_last,
        next,
    })
}

// A counter before later ones: it steps where all of these are at their ends.
fn joined(netlist: &mut Netlist, counter: Stepped, later: Later) -> Result<Later, NoMemory>
    requires counter { HasCounter netlist.old counter }
    requires later { HasLater netlist.old later }
    requires width { counter.word.width + later.next.width ≤ 128 }
    ensures { IfOk result (MakesLater netlist.old netlist.new 3
        (counter.word.width + later.next.width)
        (λ v. (if nat_eq (v later.ended.net) 1 then v counter.next.net else v counter.word.net)
        * 2 ^ later.next.width + v later.next.net)
        (λ v. nat_eq (v counter.is_last.net) 1 && nat_eq (v later.ended.net) 1)) }
{
    let value = netlist.choose(later.ended, counter.next, counter.word)?;
    let next = netlist.concat(value, later.next)?;
    let ended = netlist.binary(Sign::And, counter.is_last, later.ended)?;
    Ok(Later { next, ended })
}

// The word after this one of a chain, the first counter in its high bits.
fn state_after(
    netlist: &mut Netlist,
    state: Signal,
    digits: &[CounterDigit],
) -> Result<Signal, NoMemory>
    requires state { HasSignal netlist.old state }
    requires digits { All IsDigit digits.now }
    requires some { 1 ≤ length digits.now }
    requires wide { state.width ≡ bits_of digits.now }
    ensures { IfOk result (Makes netlist.old netlist.new (10 * length digits.now) state.width
        (λ v. state_after digits.now (v state.net))) }
{
    let last = digits.len() - 1;
    let counter = counter_wires(netlist, state, digits[last], 0)?;
    let mut later = Later {
        next: counter.next,
        ended: counter.is_last,
    };
    let mut low = digits[last].bits;
    for place in (0..last).rev() {
        let counter = counter_wires(netlist, state, digits[place], low)?;
        later = joined(netlist, counter, later)?;
        low += digits[place].bits;
    }
    Ok(later.next)
}

/// Lets a register that nothing writes yet count: at each advance from the position `time` on it
/// steps as its counters do, and a reset edge clears it.
pub(crate) fn close_counter(
    netlist: &mut Netlist,
    register: Signal,
    digits: &[CounterDigit],
    nets: AdvanceNets,
    time: u64,
) -> Result<(), NoMemory>
    requires sound { IsSound netlist.old }
    requires register { HasRegister netlist.old register }
    requires signal { HasSignal netlist.old register }
    requires unwritten { writes_reg register.net netlist.old.updates ≡ false }
    requires digits { All IsDigit digits.now }
    requires some { 1 ≤ length digits.now }
    requires wide { register.width ≡ bits_of digits.now }
    requires nets { AreAdvanceNets netlist.old nets }
    requires small { time < 2 ^ 48 }
    ensures closes { OnOk result (ClosesRegister netlist.old netlist.new nets.run.net nets.reset.net
        register.net (10 * length digits.now + 7)) }
    ensures steps { OnOk result (IsStepping netlist.new nets.run.net nets.reset.net
        nets.position.net time (state_after digits.now) register.net) }
{
    let enable = advances_from(netlist, nets, time)?;
    let next = state_after(netlist, register, digits)?;
    close_register(netlist, register, enable, nets.reset, next)
}
