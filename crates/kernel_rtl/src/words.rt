// The words of a kernel's nodes.
ghost use Rattle.std.specs.Prelude.{◌≡◌, All, IfOk};
ghost use Rattle.rtl_delays.specs.Steps.{IsSound};
ghost use Rattle.rtl_delays.specs.Elements.{HasElement};
ghost use Rattle.kernel_control.specs.Outputs.{AreUndriven};
ghost use Rattle.kernel_stages.specs.Chains.{joined, AreChains, AreWide};
ghost use Rattle.kernel_wiring.specs.Words.{IsLaidOut};
ghost use Rattle.rtl_ir.specs.declared.design.Module.{Module};
ghost use Rattle.kernel_states.specs.States.{AreStates};
ghost use Rattle.kernel_wiring.specs.Timing.{IsTiming};
ghost use Rattle.kernel_rtl.specs.Planned.{widths_of};
ghost use Rattle.kernel_rtl.specs.Words.{AreGivenWords, late_signals, data_nets};
ghost use Rattle.kernel_rtl.specs.Words.{HasStreams, AddsWords};

use crate::outputs::drive_words;
use crate::storage::Storage;
use kernel_layout::Layout;
use kernel_ports::KernelSignals;
use kernel_stages::NodeDelays;
use kernel_wiring::{Timing, add_nodes};
use mx_base::{List, NoMemory};
use rtl_build::{Netlist, Signal};
use std::alloc::Global;
use stream_graph::Kernel;

/// The signals that the delays of each node show.
pub(crate) fn late_signals(
    alloc: Global,
    delays: &[NodeDelays],
) -> Result<Vec<List<Signal>>, NoMemory>
    ensures { IfOk result (λ late. late.items ≡ late_signals delays.now) }
{
    let mut late = Vec::new(alloc);
    for node in delays {
        late.push(node.signals(alloc)?)?;
    }
    Ok(late)
}

// A signal for each node of a kernel: of an input or a scalar its port's, of a node that keeps a
// state the register of it, and of each other node one in whose place its word comes.
fn given_words(
    alloc: Global,
    kernel: &Kernel,
    ports: &KernelSignals,
    states: &[Option<Signal>],
) -> Result<Vec<Signal>, NoMemory>
    requires streams { (m : Module) × HasStreams m kernel.now.nodes ports.now }
    requires states { (m : Module) × AreStates m kernel.now.nodes states.now }
    ensures { IfOk result (λ words.
        AreGivenWords kernel.now.nodes ports.now states.now words.items) }
{
    let count = kernel.count() as usize;
    let mut words = vec![in alloc; ports.reset; count]?;
    for port in ports.inputs.as_slice() {
        words[port.node as usize] = port.word;
    }
    for port in ports.scalars.as_slice() {
        words[port.node as usize] = port.signal;
    }
    for node in 0..count {
        if let Some(register) = states[node] {
            words[node] = register;
        }
    }
    Ok(words)
}

/// Adds the words of a kernel's nodes, in the order of its layout, and gives its outputs theirs.
/// Answered is the signal of each node's word, in node order.
pub(crate) fn add_words(
    alloc: Global,
    netlist: &mut Netlist,
    kernel: &Kernel,
    layout: &Layout,
    ports: &KernelSignals,
    storage: &Storage,
    timing: &Timing,
) -> Result<Vec<Signal>, NoMemory>
    requires sound { IsSound netlist.old }
    requires layout { IsLaidOut kernel.now.nodes layout.now }
    requires streams { HasStreams netlist.old kernel.now.nodes ports.now }
    requires undriven { AreUndriven netlist.old (data_nets ports.now.outputs) }
    requires states { AreStates netlist.old kernel.now.nodes storage.now.states }
    requires late { AreChains layout.now.pipeline layout.now.waits storage.now.delays }
    requires wide { AreWide (widths_of kernel.now.nodes) storage.now.delays }
    requires delays { All (HasElement netlist.old) (joined storage.now.delays) }
    requires timing { IsTiming netlist.old kernel.now.nodes timing.now }
    ensures { IfOk result (λ words. AddsWords netlist.old netlist.new kernel.now.nodes layout.now
        ports.now storage.now timing.now words.items) }
{
    let late = late_signals(alloc, storage.delays.as_slice())?;
    let mut words = given_words(alloc, kernel, ports, storage.states.as_slice())?;
    add_nodes(
        alloc,
        netlist,
        kernel,
        layout,
        late.as_slice(),
        timing,
        words.as_mut_slice(),
    )?;
    drive_words(netlist, words.as_slice(), ports.outputs.as_slice())?;
    Ok(words)
}
