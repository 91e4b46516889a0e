// The ports, the registers and the memory.
ghost use Rattle.std.specs.Prelude.{◌≡◌, ◌≤◌, IfOk, OnOk};
ghost use Rattle.rtl_build.specs.Wires.{empty};
ghost use Rattle.link_fifo.specs.Netlist.{with_input, with_output, frame_of};

use mx_base::{NoMemory, Text};
use rtl_build::Netlist;
use std::alloc::Global;

// A name of these bytes.
fn text(alloc: Global, bytes: &[u8]) -> Result<Text, NoMemory>
    ensures { IfOk result (λ t. t ≡ bytes.now) }
{
    Ok(Text::from_vec(bytes.to_vec(alloc)?))
}

// The ports of the side that takes words.
fn add_input(alloc: Global, netlist: &mut Netlist, width: u8) -> Result<(), NoMemory>
    requires some { 1 ≤ width }
    requires narrow { width ≤ 128 }
    ensures { OnOk result (netlist.new ≡ with_input netlist.old width) }
{
    netlist.input(text(alloc, b"in$data")?, width)?;
    netlist.input(text(alloc, b"in$valid")?, 1)?;
    netlist.output(text(alloc, b"in$ready")?, 1)?;
    Ok(())
}

// The ports of the side that gives words.
fn add_output(alloc: Global, netlist: &mut Netlist, width: u8) -> Result<(), NoMemory>
    requires some { 1 ≤ width }
    requires narrow { width ≤ 128 }
    ensures { OnOk result (netlist.new ≡ with_output netlist.old width) }
{
    netlist.output(text(alloc, b"out$data")?, width)?;
    netlist.output(text(alloc, b"out$valid")?, 1)?;
    netlist.input(text(alloc, b"out$ready")?, 1)?;
    Ok(())
}

// Adds all of that to a module that has nothing but a name.
fn add_frame(
    alloc: Global,
    netlist: &mut Netlist,
    width: u8,
    depth: u32,
    place_bits: u8,
    count_bits: u8,
) -> Result<(), NoMemory>
    requires some { 1 ≤ width }
    requires narrow { width ≤ 128 }
    requires some_places { 1 ≤ place_bits }
    requires narrow_places { place_bits ≤ 128 }
    requires some_counts { 1 ≤ count_bits }
    requires narrow_counts { count_bits ≤ 128 }
    requires empty { netlist.old ≡ empty netlist.old.name }
    ensures { OnOk result (netlist.new
        ≡ frame_of netlist.old.name width depth place_bits count_bits) }
{
    netlist.input(text(alloc, b"clk")?, 1)?;
    netlist.input(text(alloc, b"reset")?, 1)?;
    add_input(alloc, netlist, width)?;
    add_output(alloc, netlist, width)?;
    netlist.register(text(alloc, b"r8")?, place_bits)?;
    netlist.register(text(alloc, b"r9")?, count_bits)?;
    netlist.memory(text(alloc, b"m0")?, width, depth)?;
    Ok(())
}

/// The module that has the ports, the registers of the place and of the count, of `place_bits` and
/// `count_bits` bits, and the memory of `depth` words of `width` bits, and nothing else.
pub fn frame_of(
    alloc: Global,
    name: Text,
    width: u8,
    depth: u32,
    place_bits: u8,
    count_bits: u8,
) -> Result<Netlist, NoMemory>
    requires some { 1 ≤ width }
    requires narrow { width ≤ 128 }
    requires some_places { 1 ≤ place_bits }
    requires narrow_places { place_bits ≤ 128 }
    requires some_counts { 1 ≤ count_bits }
    requires narrow_counts { count_bits ≤ 128 }
    ensures { IfOk result (λ m. m ≡ frame_of name width depth place_bits count_bits) }
{
    let mut netlist = Netlist::new(alloc, name);
    add_frame(alloc, &mut netlist, width, depth, place_bits, count_bits)?;
    Ok(netlist)
}
