// The wires, by name and width.
ghost use Rattle.std.specs.Prelude.{◌≡◌, ◌+◌, ◌≤◌, ◌++◌, length, IfOk, OnOk};
ghost use Rattle.rtl_build.specs.Wires.{wire_name};
ghost use Rattle.link_fifo.specs.Netlist.{wire, wires_from, wire_widths};

use mx_base::{List, NoMemory, Text};
use rtl_ir::Net;
use std::alloc::Global;

// The wire that is net number `number`.
fn wire(alloc: Global, number: usize, width: u8) -> Result<Net, NoMemory>
    ensures { IfOk result (λ net. net ≡ wire (wire_name number) width) }
{
    let name = format!(in alloc; "w{number}")?;
    Ok(Net {
        name: Text::from_vec(name.into_bytes()),
        width,
        reg: false,
    })
}

/// Adds wires of these widths in bits, each named by its number among the nets.
///
/// Its error is want of memory.
pub fn add_wires(alloc: Global, nets: &mut List<Net>, widths: &[u8]) -> Result<(), NoMemory>
    ensures { OnOk result (nets.new ≡ nets.old ++ wires_from (length nets.old) widths.now) }
{
    for width in widths {
        let net = wire(alloc, nets.len(), *width)?;
        nets.push(net)?;
    }
    Ok(())
}

/// Adds all wires: those that say what is full or empty and what moves, those of the next place, of
/// the next count, and of where a word is written.
pub fn add_all_wires(
    alloc: Global,
    nets: &mut List<Net>,
    place_bits: u8,
    count_bits: u8,
) -> Result<(), NoMemory>
    requires order { place_bits ≤ count_bits }
    requires narrow { count_bits ≤ 17 }
    ensures { OnOk result (nets.new
        ≡ nets.old ++ wires_from (length nets.old) (wire_widths place_bits count_bits)) }
{
    let (p, q, sum) = (place_bits, count_bits, count_bits + 1);
    let widths = [
        q,
        1,
        q,
        1,
        1,
        1,
        p,
        1,
        p,
        p,
        p,
        p,
        p,
        p,
        q,
        q,
        q,
        q,
        q,
        q,
        q,
        1,
        sum - p,
        1,
        sum,
        sum,
        sum,
        sum,
        1,
        p,
        p,
        p,
        p,
    ];
    add_wires(alloc, nets, &widths)
}
