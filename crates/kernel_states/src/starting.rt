// The registers of states.
ghost use Rattle.std.specs.Prelude.{◌≡◌, ◌<◌, length, IfOk};
ghost use Rattle.rtl_delays.specs.Steps.{IsSound};
ghost use Rattle.kernel_states.specs.States.{has_state};
ghost use Rattle.kernel_states.specs.Starting.{AddsState, AddsStates};

use mx_base::{List, NoMemory};
use rtl_build::{Netlist, Signal};
use rtl_delays::start_register;
use std::alloc::Global;
use stream_graph::{Kernel, Kind, NodeId};

// Whether a node of this kind keeps a state.
fn has_state(kind: Kind) -> bool
    ensures { result ≡ has_state kind }
{
    matches!(kind, Kind::Hold | Kind::Counter | Kind::Chain)
}

// Adds a register for a node, if it keeps a state.
fn start_state(
    alloc: Global,
    netlist: &mut Netlist,
    kernel: &Kernel,
    node: NodeId,
) -> Result<Option<Signal>, NoMemory>
    requires sound { IsSound netlist.old }
    requires node { node < length kernel.now.nodes }
    ensures { IfOk result (AddsState netlist.old netlist.new kernel.now.nodes node) }
{
    let view = kernel.node(node);
    if !has_state(view.kind) {
        return Ok(None);
    }
    let register = start_register(alloc, netlist, view.t.width())?;
    Ok(Some(register))
}

/// Adds a register for each node of a kernel that keeps a state, of the width of its words, which
/// nothing writes yet. Answered are the registers, in node order. The only error is `NoMemory`.
pub fn start_states(
    alloc: Global,
    netlist: &mut Netlist,
    kernel: &Kernel,
) -> Result<List<Option<Signal>>, NoMemory>
    requires { IsSound netlist.old }
    ensures { IfOk result (AddsStates netlist.old netlist.new kernel.now.nodes) }
{
    let mut states = List::new(alloc);
    for number in 0..kernel.count() {
        let state = start_state(alloc, netlist, kernel, NodeId::new(number))?;
        states.push(state)?;
    }
    Ok(states)
}
