// The module of a kernel.
ghost use Rattle.std.specs.Prelude.{◌≡◌, ◌+◌, ◌≤◌, ◌<◌, ◌^◌, ◌≤ℤ◌, ℕ, pos, length, IfOk, OnOk, IsTrue};
ghost use Rattle.cycle_find.specs.Constraints.{numbers_of};
ghost use Rattle.rtl_ir.specs.Ports.{is_plain_name};
ghost use Rattle.rtl_delays.specs.Partial.{IsPartial};
ghost use Rattle.rtl_delays.specs.Stored.{stored_bits};
ghost use Rattle.rtl_reading.specs.Reads.{IsPortsFirst};
ghost use Rattle.kernel_control.specs.Refines.{Refines};
ghost use Rattle.kernel_ports.specs.HasKernelPorts.{HasKernelPorts};
ghost use Rattle.kernel_stages.specs.Numbers.{ring_count};
ghost use Rattle.kernel_stages.specs.Numbers.{pipeline_bits, all_word_bits, all_pointer_bits};
ghost use Rattle.kernel_states.specs.States.{state_bits};
ghost use Rattle.kernel_wiring.specs.Timing.{time_at};
ghost use Rattle.kernel_rtl.specs.Planned.{IsPlanned, times_of, widths_of, most_nets};

use crate::control::control;
use crate::storage::start_storage;
use crate::words::{add_words, late_signals};
use counter_chains::chains_by_ticks;
use kernel_layout::Layout;
use kernel_ports::{KernelSignals, kernel_ports};
use kernel_stages::close_stages;
use kernel_states::{AdvanceNets, close_states, digits_are_sound};
use kernel_wiring::{Timing, port_controls};
use mx_base::{List, NoMemory};
use rtl_build::{Netlist, Signal};
use rtl_ir::Module;
use std::alloc::Global;
use stream_graph::Kernel;

// The module that was built. A list has fewer than 2^64 items.
fn finished(netlist: Netlist) -> Module
    ensures whole { result ≡ netlist }
    ensures nets { length result.nets < 2 ^ 64 }
    ensures mems { length result.mems < 2 ^ 64 }
{
    let module = netlist.finish();
    prove!(module.nets.len() <= usize::MAX);
    prove!(module.mems.len() <= usize::MAX);
    module
}

// By what the module knows in which tick a node is: the times of nodes, none of which is below 0.
fn timing(
    alloc: Global,
    kernel: &Kernel,
    position: Signal,
    ticks: Signal,
    times: &[i64],
) -> Result<Timing, NoMemory>
    requires all { length kernel.now.nodes ≤ length times.now }
    requires begin { (v : ℕ) → v < length kernel.now.nodes → pos 0 ≤ℤ numbers_of times.now v }
    ensures position { IfOk result (λ timing. timing.position ≡ position) }
    ensures ticks { IfOk result (λ timing. timing.ticks ≡ ticks) }
    ensures counted { IfOk result (λ timing. length timing.times ≡ length kernel.now.nodes) }
    ensures times { IfOk result (λ timing. (v : ℕ) → v < length kernel.now.nodes
        → time_at timing v ≡ times_of times.now v) }
{
    let mut whole = List::new(alloc);
    for node in 0..kernel.count() as usize {
        whole.push(times[node] as u64)?;
    }
    Ok(Timing {
        position,
        ticks,
        times: whole,
    })
}

// Adds to the ports of a kernel's module what the kernel stores, computes and tells. That it refines
// the kernel is known where its nets and memories are numbered in 64 bits. Apart from
// `kernel_module`, which owns the netlist, so that no error here has a netlist to drop.
fn add_kernel(
    alloc: Global,
    netlist: &mut Netlist,
    ports: &KernelSignals,
    kernel: &Kernel,
    layout: &Layout,
    times: &[i64],
) -> Result<(), NoMemory>
    requires made { HasKernelPorts kernel.now netlist.old ports.now }
    requires times { length kernel.now.nodes ≤ length times.now }
    requires planned { IsPlanned kernel.now.nodes (numbers_of times.now) layout.now }
    ensures refines { OnOk result (length netlist.new.nets < 2 ^ 64
        → length netlist.new.mems < 2 ^ 64
        → Refines netlist.new kernel.now (times_of times.now)) }
    ensures ports_first { OnOk result (IsPortsFirst netlist.new) }
    ensures stored { OnOk result (stored_bits netlist.new
        ≡ 48 + state_bits kernel.now.nodes
        + pipeline_bits (widths_of kernel.now.nodes) layout.now.pipeline
        + all_word_bits (widths_of kernel.now.nodes) layout.now.waits
        + all_pointer_bits layout.now.waits) }
    ensures nets { OnOk result (
        length netlist.new.nets ≤ most_nets kernel.now.nodes layout.now) }
    ensures mems { OnOk result (length netlist.new.mems ≤ ring_count layout.now.waits) }
    ensures partial { OnOk result (IsPartial netlist.new) }
{
    // What counters are, and how the words of chains hold them.
    digits_are_sound(kernel);
    chains_by_ticks();
    let storage = start_storage(alloc, netlist, kernel, layout)?;
    let timing = timing(alloc, kernel, storage.position, ports.ticks, times)?;
    let added = add_words(alloc, netlist, kernel, layout, ports, &storage, &timing)?;
    let words = added.as_slice();
    let delays = storage.delays.as_slice();
    let late = late_signals(alloc, delays)?;
    let enables = port_controls(alloc, kernel, layout, late.as_slice(), words)?;
    let run = control(alloc, netlist, ports, &timing, enables.as_slice())?;
    close_stages(netlist, run, ports.reset, words, delays)?;
    let nets = AdvanceNets {
        run,
        reset: ports.reset,
        position: storage.position,
    };
    let states = storage.states.as_slice();
    let whole = timing.times.as_slice();
    close_states(netlist, kernel, states, words, whole, nets)?;
    Ok(())
}

/// The module of a kernel at these times, by a layout at them: it refines the kernel, its ports are
/// its first nets, in their order, and it stores the 48 bits of its position, the states of its
/// holds, counters and chains, the registers of its nodes' pipelines, the words that wait behind
/// these, and the pointers of those that are kept in memories. Its nets are at most `most_nets`,
/// named by their numbers past its ports (`IsPartial`), and it has a memory for each ring.
///
/// The kernel's name is a letter and then letters, digits and `_`. Times are in advances, from 0 to
/// 2^46, in node order. The only error is `NoMemory`, also where the module has 2^32 nets.
pub fn kernel_module(
    alloc: Global,
    kernel: &Kernel,
    layout: &Layout,
    times: &[i64],
) -> Result<Module, NoMemory>
    requires name { IsTrue (is_plain_name kernel.now.name) }
    requires times { length kernel.now.nodes ≤ length times.now }
    requires planned { IsPlanned kernel.now.nodes (numbers_of times.now) layout.now }
    ensures refines { IfOk result (λ built. Refines built kernel.now (times_of times.now)) }
    ensures ports_first { IfOk result IsPortsFirst }
    ensures stored { IfOk result (λ built. stored_bits built
        ≡ 48 + state_bits kernel.now.nodes
        + pipeline_bits (widths_of kernel.now.nodes) layout.now.pipeline
        + all_word_bits (widths_of kernel.now.nodes) layout.now.waits
        + all_pointer_bits layout.now.waits) }
    ensures nets { IfOk result (λ built.
        length built.nets ≤ most_nets kernel.now.nodes layout.now) }
    ensures mems { IfOk result (λ built. length built.mems ≤ ring_count layout.now.waits) }
    ensures partial { IfOk result IsPartial }
{
    let (mut netlist, ports) = kernel_ports(alloc, kernel)?;
    add_kernel(alloc, &mut netlist, &ports, kernel, layout, times)?;
    Ok(finished(netlist))
}
