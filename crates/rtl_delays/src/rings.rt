// Rings in memories, which are so many advances behind a signal as they have words.
ghost use Rattle.std.specs.Prelude.{◌≡◌, ◌+◌, ◌-◌, ◌%◌, ◌≤◌, ◌<◌, ◌^◌, Some, true, nat_eq, if◌then◌else◌, length, IfOk, OnOk};
ghost use Rattle.rtl_build.specs.Signals.{HasSignal, Makes};
ghost use Rattle.rtl_delays.specs.Delays.{IsDelay, of_net};
ghost use Rattle.rtl_delays.specs.Steps.{IsSound, writes_reg};
ghost use Rattle.rtl_delays.specs.Extends.{Extends, AddsNoRegister, KeepsStill, LeavesFree};
ghost use Rattle.rtl_delays.specs.Driven.{KeepsUndriven};
ghost use Rattle.rtl_delays.specs.Stored.{stored_bits};
ghost use Rattle.rtl_delays.specs.Rings.{IsPointerWidth, HasRing, IsUnwritten, AddsRing};

use crate::naming::memory_name;
use crate::registers::start_register;
use mx_base::NoMemory;
use mx_bits::Word;
use rtl_build::{Netlist, Signal};
use rtl_ir::{MemId, Sign};
use std::alloc::Global;

/// A memory of `words` words, a register that points to one of them, and a wire of the word there.
#[derive(Clone, Copy, PartialEq, Eq)]
pub struct Ring {
    pub pointer: Signal,
    pub memory: MemId,
    pub word: Signal,
    pub words: u32,
}

// The bits that a pointer to one of so many words needs.
fn pointer_width(words: u32) -> u8
    requires { 2 ≤ words }
    ensures { IsPointerWidth words result }
{
    (32 - (words - 1).leading_zeros()) as u8
}

/// A new ring of 2 to 2^28 words of 1 to 128 bits that nothing writes yet. Its pointer has the
/// fewest bits that hold each number below `words`, and is named as a register is. Its memory is
/// named `m` and then its number.
pub fn start_ring(
    alloc: Global,
    netlist: &mut Netlist,
    width: u8,
    words: u32,
) -> Result<Ring, NoMemory>
    requires sound { IsSound netlist.old }
    requires some { 1 ≤ width }
    requires at_most { width ≤ 128 }
    requires words { 2 ≤ words }
    requires few { words ≤ 2 ^ 28 }
    ensures { IfOk result (AddsRing netlist.old netlist.new width words) }
{
    let pointer = start_register(alloc, netlist, pointer_width(words))?;
    let name = memory_name(alloc, netlist.module().mems.len())?;
    let memory = netlist.memory(name, width, words)?;
    let word = netlist.cell(memory, pointer)?;
    Ok(Ring {
        pointer,
        memory,
        word,
        words,
    })
}

// The place after the one at which the pointer stands: the first one after the last one, and in a
// reset edge.
fn next_place(
    netlist: &mut Netlist,
    at: Signal,
    words: u32,
    reset: Signal,
) -> Result<Signal, NoMemory>
    requires at { HasSignal netlist.old at }
    requires reset { HasSignal netlist.old reset }
    requires bit { reset.width ≡ 1 }
    requires some { 2 ≤ words }
    requires fits { words ≤ 2 ^ at.width }
    ensures { IfOk result (Makes netlist.old netlist.new 7 at.width
        (λ v. if nat_eq (v reset.net) 1 then 0
        else if nat_eq (v at.net) (words - 1) then 0
        else (v at.net + 1) % 2 ^ at.width)) }
{
    let zero = netlist.literal(Word::new(0, at.width))?;
    let one = netlist.literal(Word::new(1, at.width))?;
    let last = netlist.literal(Word::new(words as u128 - 1, at.width))?;
    let is_last = netlist.binary(Sign::Eq, at, last)?;
    let more = netlist.binary(Sign::Add, at, one)?;
    let round = netlist.choose(is_last, zero, more)?;
    netlist.choose(reset, zero, round)
}

/// Lets a ring that nothing writes yet follow a signal of its width: where `run`, of one bit, is 1
/// its word at the pointer is replaced by the signal's, and the pointer steps round. A reset edge
/// clears the pointer.
pub fn close_ring(
    netlist: &mut Netlist,
    ring: Ring,
    run: Signal,
    reset: Signal,
    from: Signal,
) -> Result<(), NoMemory>
    requires sound { IsSound netlist.old }
    requires ring { HasRing netlist.old ring }
    requires free { IsUnwritten netlist.old ring }
    requires run { HasSignal netlist.old run }
    requires run_bit { run.width ≡ 1 }
    requires reset { HasSignal netlist.old reset }
    requires reset_bit { reset.width ≡ 1 }
    requires from { HasSignal netlist.old from }
    requires same { from.width ≡ ring.word.width }
    ensures extends { OnOk result (Extends netlist.old netlist.new) }
    ensures still { OnOk result (KeepsStill netlist.old netlist.new run.net reset.net) }
    ensures others { OnOk result
        (LeavesFree netlist.old netlist.new ring.pointer.net (Some ring.memory)) }
    ensures written { OnOk result (writes_reg ring.pointer.net netlist.new.updates ≡ true) }
    ensures registers { OnOk result (AddsNoRegister netlist.old netlist.new) }
    ensures undriven { OnOk result (KeepsUndriven netlist.old netlist.new) }
    ensures nets { OnOk result (length netlist.new.nets ≤ length netlist.old.nets + 8) }
    ensures stored { OnOk result (stored_bits netlist.new ≡ stored_bits netlist.old) }
    ensures delay { OnOk result
        (IsDelay netlist.new run.net reset.net (of_net from.net) ring.word.net ring.words) }
{
    let next = next_place(netlist, ring.pointer, ring.words, reset)?;
    let step = netlist.binary(Sign::Or, run, reset)?;
    netlist.update(step, ring.pointer, next)?;
    netlist.write(run, ring.memory, ring.pointer, from)
}
