// The module of a FIFO.
ghost use Rattle.std.specs.Prelude.{◌≡◌, ◌-◌, ◌≤◌, ◌<◌, ◌^◌, IfOk, IsTrue};
ghost use Rattle.rtl_ir.specs.Names.{is_name};
ghost use Rattle.link_fifo.specs.Numbers.{AreNumbers};
ghost use Rattle.link_fifo.specs.Netlist.{fifo_of};
ghost use Rattle.link_fifo.specs.Fifo.{IsFifoModule};

use crate::assigns::assigns_of;
use crate::frame::frame_of;
use crate::numbers::{Numbers, numbers_of};
use crate::updates::all_updates;
use crate::wires::add_all_wires;
use mx_base::{NoMemory, Text};
use rtl_ir::Module;
use std::alloc::Global;

// The least number of bits that holds the number.
fn bits_for(number: u32) -> u8
    requires positive { 0 < number }
    requires most { number ≤ 65536 }
    ensures holds { number < 2 ^ result }
    ensures least { 2 ^ (result - 1) ≤ number }
    ensures some { 1 ≤ result }
    ensures small { result ≤ 17 }
{
    let mut bits = 1;
    while 1u32 << bits <= number {
        bits += 1;
    }
    bits
}

// The module with these numbers of bits for its places and its counts.
fn build(
    alloc: Global,
    name: Text,
    width: u8,
    depth: u32,
    place_bits: u8,
    count_bits: u8,
    numbers: Numbers,
) -> Result<Module, NoMemory>
    requires some { 1 ≤ width }
    requires narrow { width ≤ 128 }
    requires some_places { 1 ≤ place_bits }
    requires order { place_bits ≤ count_bits }
    requires narrow_counts { count_bits ≤ 17 }
    ensures { IfOk result (λ m. m ≡ fifo_of name width depth place_bits count_bits numbers) }
{
    let frame = frame_of(alloc, name, width, depth, place_bits, count_bits)?;
    let mut module = frame.finish();
    add_all_wires(alloc, &mut module.nets, place_bits, count_bits)?;
    module.assigns = assigns_of(alloc, place_bits, numbers)?;
    module.updates = all_updates(alloc)?;
    Ok(module)
}

/// The module of a FIFO of this name: a queue of at most `depth` words of `width` bits, first in
/// first out. The width is 1 to 128 and the depth 2 to 65,536.
///
/// The ports are `clk` and `reset`; `in$data`, `in$valid` and `in$ready` of the side that takes
/// words; and `out$data`, `out$valid` and `out$ready` of the side that gives them. The data have
/// `width` bits and the others 1. The outputs are `in$ready`, `out$data` and `out$valid`. A word
/// moves at a rising edge of the clock where valid and ready are both 1. A reset clears the queue.
///
/// No output hangs on an input of the same edge. The module keeps all rules of `rtl_ir` in every
/// design. It stores `width * depth` bits, and the place of the first word and the number of words
/// in as few bits as hold `depth - 1` and `depth`.
///
/// The only error is `NoMemory`.
pub fn fifo(alloc: Global, name: Text, width: u8, depth: u32) -> Result<Module, NoMemory>
    requires named { IsTrue (is_name name) }
    requires some { 1 ≤ width }
    requires narrow { width ≤ 128 }
    requires least { 2 ≤ depth }
    requires most { depth ≤ 65536 }
    ensures { IfOk result (IsFifoModule name width depth) }
{
    let places = bits_for(depth - 1);
    let counts = bits_for(depth);
    let numbers = numbers_of(depth, places, counts);
    build(alloc, name, width, depth, places, counts, numbers)
}
