// Delays that nothing writes yet.
ghost use Rattle.std.specs.Prelude.{◌≡◌, length, All, IfOk};
ghost use Rattle.rtl_delays.specs.Steps.{IsSound};
ghost use Rattle.kernel_stages.specs.Numbers.{up_to, AreRising, IsWidth};
ghost use Rattle.kernel_stages.specs.Starting.{AddsChain, AddsDelays, AddsChains};

use crate::NodeDelays;
use mx_base::{List, NoMemory};
use rtl_build::Netlist;
use rtl_delays::{Element, start_element};
use std::alloc::Global;

// The numbers from 1 up to this one.
fn up_to(alloc: Global, last: u32) -> Result<List<u64>, NoMemory>
    ensures { IfOk result (λ numbers. numbers ≡ up_to last) }
{
    let mut numbers = List::new(alloc);
    for before in 0..last {
        numbers.push(u64::from(before) + 1)?;
    }
    Ok(numbers)
}

// Adds a chain of delays for words of this width, one after each of these numbers of advances.
fn start_chain(
    alloc: Global,
    netlist: &mut Netlist,
    width: u8,
    stages: &[u64],
) -> Result<List<Element>, NoMemory>
    requires sound { IsSound netlist.old }
    requires width { IsWidth width }
    requires stages { AreRising stages.now }
    ensures { IfOk result (AddsChain netlist.old netlist.new width stages.now) }
{
    let mut chain = List::new(alloc);
    let mut prior = 0;
    for stage in stages {
        let advances = *stage - prior;
        chain.push(start_element(alloc, netlist, width, advances as u32)?)?;
        prior = *stage;
    }
    Ok(chain)
}

// Adds the delays of a node of this width and latency, whose word waits so behind its pipeline.
fn start_node(
    alloc: Global,
    netlist: &mut Netlist,
    width: u8,
    latency: u32,
    waits: &[u64],
) -> Result<NodeDelays, NoMemory>
    requires sound { IsSound netlist.old }
    requires width { IsWidth width }
    requires waits { AreRising waits.now }
    ensures { IfOk result (AddsDelays netlist.old netlist.new width latency waits.now) }
{
    let registers = up_to(alloc, latency)?;
    let pipeline = start_chain(alloc, netlist, width, registers.as_slice())?;
    let waits = start_chain(alloc, netlist, width, waits)?;
    Ok(NodeDelays { pipeline, waits })
}

/// Adds, for each node, a register for each advance of its latency and a delay for each of its
/// waits, which nothing writes yet. `widths` has the width of each node's word, in bits,
/// `latencies` its latency, in advances, and `waits` the numbers of advances for which its word
/// waits behind that.
///
/// A delay of one advance is a register. One of more is a memory of as many words, with a pointer
/// of the fewest bits. The only error is want of memory.
pub fn start_stages(
    alloc: Global,
    netlist: &mut Netlist,
    widths: &[u8],
    latencies: &[u32],
    waits: &[List<u64>],
) -> Result<List<NodeDelays>, NoMemory>
    requires sound { IsSound netlist.old }
    requires nodes { length widths.now ≡ length waits.now }
    requires latencies { length latencies.now ≡ length waits.now }
    requires widths { All IsWidth widths.now }
    requires waits { All AreRising waits.now }
    ensures { IfOk result
        (AddsChains netlist.old netlist.new widths.now latencies.now waits.now) }
{
    let mut delays = List::new(alloc);
    for node in 0..waits.len() {
        let behind = waits[node].as_slice();
        delays.push(start_node(alloc, netlist, widths[node], latencies[node], behind)?)?;
    }
    Ok(delays)
}
