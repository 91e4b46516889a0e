// The wires of all nodes.
ghost use Rattle.std.specs.Prelude.{OnOk};
ghost use Rattle.rtl_delays.specs.Steps.{IsSound};
ghost use Rattle.kernel_wiring.specs.Words.{AreGiven, AreLate, IsLaidOut};
ghost use Rattle.kernel_wiring.specs.Timing.{IsTiming};
ghost use Rattle.kernel_wiring.specs.AllNodes.{AddsNodes};

use crate::Timing;
use crate::node::node_word;
use kernel_layout::Layout;
use mx_base::{List, NoMemory};
use rtl_build::{Netlist, Signal};
use std::alloc::Global;
use stream_graph::{Kernel, NodeId};

/// Adds the wires of a kernel's constants, operations, feeds, outputs, parts and holds to its
/// module, in the order of its layout. An output's word is the signal that it reads.
///
/// `words` has a signal for each node, in node order. Those of the nodes of other kinds are given;
/// those of the nodes that get wires here are written, of which those of holds are given too: they
/// are what the holds keep. `late` has for each node the signals that show its word later, one
/// after its latency, if it has one, and one for each of its waits in the layout.
///
/// The only error is `NoMemory`, also where the module has 2^32 nets. After it the module isn't to
/// be used.
pub fn add_nodes(
    alloc: Global,
    netlist: &mut Netlist,
    kernel: &Kernel,
    layout: &Layout,
    late: &[List<Signal>],
    timing: &Timing,
    words: &mut [Signal],
) -> Result<(), NoMemory>
    requires sound { IsSound netlist.old }
    requires layout { IsLaidOut kernel.now.nodes layout.now }
    requires late { AreLate netlist.old kernel.now.nodes layout.now late.now }
    requires timing { IsTiming netlist.old kernel.now.nodes timing.now }
    requires given { AreGiven netlist.old kernel.now.nodes words.old }
    ensures { OnOk result (AddsNodes netlist.old netlist.new kernel.now.nodes layout.now late.now
        timing.now words.old words.new) }
{
    for node in layout.order.as_slice() {
        let id = NodeId::new(*node);
        let word = node_word(alloc, netlist, kernel, layout, late, words, timing, id)?;
        if let Some(word) = word {
            words[id.index()] = word;
        }
    }
    Ok(())
}
