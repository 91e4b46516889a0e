// A module of the delays of two nodes.
ghost use Rattle.std.specs.Prelude.{◌≡◌, [], ◌∷◌, IfOk};
ghost use Rattle.rtl_delays.specs.Partial.{HasPortsAlone};

use crate::inputs::add_inputs;
use crate::ports::empty;
use kernel_stages::{close_stages, followed_words, start_stages};
use mx_base::{List, NoMemory};
use rtl_build::{Netlist, Signal};
use rtl_ir::Module;
use std::alloc::Global;

// The module, and the signals that show words later: two of the first node and one of the other.
#[derive(Drop)]
pub(crate) struct ShownStages {
    pub(crate) module: Module,
    pub(crate) shown: [List<Signal>; 2],
}

// For 5 advances, and for 3.
fn waits(alloc: Global) -> Result<List<List<u64>>, NoMemory>
    ensures { IfOk result (λ s. s ≡ (5 ∷ []) ∷ (3 ∷ []) ∷ []) }
{
    let mut first = List::new(alloc);
    first.push(5)?;
    let mut second = List::new(alloc);
    second.push(3)?;
    let mut both = List::new(alloc);
    both.push(first)?;
    both.push(second)?;
    Ok(both)
}

// Adds words of 8 bits with a latency of 1, which wait for 5 advances behind it, and words of 16
// bits without latency, which wait for 3.
fn add_stages(alloc: Global, netlist: &mut Netlist) -> Result<[List<Signal>; 2], NoMemory>
    requires alone { HasPortsAlone netlist.old }
{
    let inputs = add_inputs(alloc, netlist)?;
    let kept = waits(alloc)?;
    let waits = kept.as_slice();
    let started = start_stages(alloc, netlist, &[8, 16], &[1, 0], waits)?;
    let delays = started.as_slice();
    let words = [inputs.narrow, inputs.wide];
    followed_words();
    let first = delays[0].signals(alloc)?;
    let second = delays[1].signals(alloc)?;
    close_stages(netlist, inputs.run, inputs.reset, &words, delays)?;
    Ok([first, second])
}

// The module of these stages.
pub(crate) fn stages_module(alloc: Global) -> Result<ShownStages, NoMemory> {
    let mut netlist = empty(alloc, b"stages")?;
    let shown = add_stages(alloc, &mut netlist)?;
    Ok(ShownStages {
        module: netlist.finish(),
        shown,
    })
}
