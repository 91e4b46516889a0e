// What the registers of states take.
ghost use Rattle.std.specs.Prelude.{◌≡◌, ◌<◌, ◌^◌, ℕ, length, slice_index, OnOk};
ghost use Rattle.rtl_delays.specs.Steps.{IsSound};
ghost use Rattle.kernel_states.specs.States.{IsState, IsUnwritten, AreStates, AreFree};
ghost use Rattle.kernel_states.specs.Closing.{AreAdvanceNets, HaveWords, word_at};
ghost use Rattle.kernel_states.specs.Closing.{ClosesState, ClosesStates};

use crate::counters::close_counter;
use crate::registers::{AdvanceNets, close_register};
use counter_chains::chains_by_ticks;
use mx_base::NoMemory;
use rtl_build::{Netlist, Signal};
use stream_graph::{Kernel, Kind, NodeId};

// Lets the register of a node's state step, if the node keeps one.
fn close_state(
    netlist: &mut Netlist,
    kernel: &Kernel,
    node: NodeId,
    state: Option<Signal>,
    words: &[Signal],
    time: u64,
    nets: AdvanceNets,
) -> Result<(), NoMemory>
    requires sound { IsSound netlist.old }
    requires node { node < length kernel.now.nodes }
    requires state { IsState netlist.old kernel.now.nodes node state }
    requires unwritten { IsUnwritten netlist.old state }
    requires words { HaveWords netlist.old kernel.now.nodes words.now }
    requires small { time < 2 ^ 48 }
    requires nets { AreAdvanceNets netlist.old nets }
    ensures { OnOk result (ClosesState netlist.old netlist.new kernel.now.nodes node time
        (word_at words.now node) nets state) }
{
    let Some(register) = state else {
        return Ok(());
    };
    match kernel.node(node).kind {
        Kind::Hold => close_register(netlist, register, nets.run, nets.reset, words[node.index()]),
        _ => close_counter(netlist, register, kernel.digits(node), nets, time),
    }
}

/// Lets the registers of the states of a kernel's nodes step, where the kernel advances: that of a
/// hold takes the hold's word, and that of a counter or a chain steps at each position from the
/// time of its node on. A reset edge clears them.
///
/// `states` and `words` have an item for each node, in node order: the register of its state, if
/// it keeps one, and the signal of its word. Times are in advances, below 2^48, one for each node.
/// The only error is `NoMemory`.
pub fn close_states(
    netlist: &mut Netlist,
    kernel: &Kernel,
    states: &[Option<Signal>],
    words: &[Signal],
    times: &[u64],
    nets: AdvanceNets,
) -> Result<(), NoMemory>
    requires sound { IsSound netlist.old }
    requires states { AreStates netlist.old kernel.now.nodes states.now }
    requires free { (k : ℕ) × (n : ℕ) × AreFree netlist.old k states.now n }
    requires words { HaveWords netlist.old kernel.now.nodes words.now }
    requires times { length kernel.now.nodes ≡ length times.now }
    requires small { (n : ℕ) → n < length kernel.now.nodes → slice_index times.now n < 2 ^ 48 }
    requires nets { AreAdvanceNets netlist.old nets }
    ensures { OnOk result (ClosesStates netlist.old netlist.new kernel.now.nodes
        (slice_index times.now) words.now nets states.now) }
{
    chains_by_ticks();
    for number in 0..kernel.count() {
        let node = NodeId::new(number);
        let place = node.index();
        close_state(
            netlist,
            kernel,
            node,
            states[place],
            words,
            times[place],
            nets,
        )?;
    }
    Ok(())
}
