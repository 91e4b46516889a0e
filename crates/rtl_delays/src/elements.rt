// Delays of any number of advances.
ghost use Rattle.std.specs.Prelude.{◌≡◌, ◌+◌, ◌≤◌, ◌^◌, true, length, IfOk, OnOk};
ghost use Rattle.rtl_build.specs.Signals.{HasSignal};
ghost use Rattle.rtl_delays.specs.Steps.{IsSound, writes_reg};
ghost use Rattle.rtl_delays.specs.Extends.{Extends, AddsNoRegister, KeepsStill, LeavesFree};
ghost use Rattle.rtl_delays.specs.Delays.{IsDelay, of_net};
ghost use Rattle.rtl_delays.specs.Driven.{KeepsUndriven};
ghost use Rattle.rtl_delays.specs.Stored.{stored_bits};
ghost use Rattle.rtl_delays.specs.Elements.{shown, reg_of, mem_of, advances_of, HasElement, IsFreeElement, closing_nets, AddsElement};

use crate::registers::{follow, start_register};
use crate::rings::{Ring, close_ring, start_ring};
use mx_base::NoMemory;
use rtl_build::{Netlist, Signal};
use std::alloc::Global;

/// A delay: a register is one of one advance, and a ring one of as many as it has words.
#[derive(Clone, Copy, PartialEq, Eq)]
pub enum Element {
    Register(Signal),
    Ring(Ring),
}

impl Element {
    /// The signal that is late.
    pub fn shown(self) -> Signal
        ensures { result ≡ shown self }
    {
        match self {
            Element::Register(register) => register,
            Element::Ring(ring) => ring.word,
        }
    }
}

/// A new delay of 1 to 2^28 advances, for words of 1 to 128 bits, that nothing writes yet.
pub fn start_element(
    alloc: Global,
    netlist: &mut Netlist,
    width: u8,
    advances: u32,
) -> Result<Element, NoMemory>
    requires sound { IsSound netlist.old }
    requires some { 1 ≤ width }
    requires at_most { width ≤ 128 }
    requires advances { 1 ≤ advances }
    requires few { advances ≤ 2 ^ 28 }
    ensures { IfOk result (AddsElement netlist.old netlist.new width advances) }
{
    if advances == 1 {
        Ok(Element::Register(start_register(alloc, netlist, width)?))
    } else {
        Ok(Element::Ring(start_ring(alloc, netlist, width, advances)?))
    }
}

/// Lets a delay that nothing writes yet follow a signal of its width. It advances where `run`, of
/// one bit, is 1; a reset edge begins it anew.
pub fn close_element(
    netlist: &mut Netlist,
    element: Element,
    run: Signal,
    reset: Signal,
    from: Signal,
) -> Result<(), NoMemory>
    requires sound { IsSound netlist.old }
    requires element { HasElement netlist.old element }
    requires free { IsFreeElement netlist.old element }
    requires run { HasSignal netlist.old run }
    requires run_bit { run.width ≡ 1 }
    requires reset { HasSignal netlist.old reset }
    requires reset_bit { reset.width ≡ 1 }
    requires from { HasSignal netlist.old from }
    requires same { from.width ≡ (shown element).width }
    ensures extends { OnOk result (Extends netlist.old netlist.new) }
    ensures still { OnOk result (KeepsStill netlist.old netlist.new run.net reset.net) }
    ensures others { OnOk result
        (LeavesFree netlist.old netlist.new (reg_of element) (mem_of element)) }
    ensures written { OnOk result (writes_reg (reg_of element) netlist.new.updates ≡ true) }
    ensures registers { OnOk result (AddsNoRegister netlist.old netlist.new) }
    ensures undriven { OnOk result (KeepsUndriven netlist.old netlist.new) }
    ensures nets { OnOk result
        (length netlist.new.nets ≤ length netlist.old.nets + closing_nets element) }
    ensures stored { OnOk result (stored_bits netlist.new ≡ stored_bits netlist.old) }
    ensures delay { OnOk result (IsDelay netlist.new run.net reset.net (of_net from.net)
        (shown element).net (advances_of element)) }
{
    match element {
        Element::Register(register) => follow(netlist, register, run, from),
        Element::Ring(ring) => close_ring(netlist, ring, run, reset, from),
    }
}
