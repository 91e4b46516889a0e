// The layout of a kernel's module.
ghost use Rattle.std.specs.Prelude.{◌≡◌, ◌≤◌, ◌<◌, ◌^◌, ◌≤ℤ◌, ℕ, pos, length, slice_index, IfOk};
ghost use Rattle.cycle_find.specs.Constraints.{numbers_of};
ghost use Rattle.fifo_sharing.specs.Chains.{AreChains};
ghost use Rattle.offset_edges.specs.Edges.{edges_of};
ghost use Rattle.offset_edges.specs.Problems.{problem_over};
ghost use Rattle.offset_edges.specs.Schedules.{IsLegal};
ghost use Rattle.offset_edges.specs.Walks.{IsCausal};
ghost use Rattle.kernel_layout.specs.Layouts.{IsLayout};

use crate::Read;
use crate::order::order;
use crate::reads::all_reads;
use crate::waits::all_waits;
use fifo_sharing::Chain;
use mx_base::{List, NoMemory};
use std::alloc::Global;
use stream_graph::Kernel;

/// Where the words of a kernel's nodes stand, in node order: how each node reads its operands, an
/// offset none; the advances that its pipeline takes, which are its latency; the numbers of
/// advances for which its word waits behind that, in rising order; and the nodes in an order in
/// which each comes after those whose words it reads as they are computed.
#[derive(Debug, Drop)]
pub struct Layout {
    pub reads: List<List<Read>>,
    pub pipeline: List<u32>,
    pub waits: List<List<u64>>,
    pub order: List<u32>,
}

/// The layout of a causal kernel with these latencies, in advances, at these times: a legal
/// schedule from 0 to 2^46, whose first numbers are those of the kernel's nodes. The chains are
/// those that `fifo_sharing` gives for the kernel's problem at these times. The only error is want
/// of memory.
pub fn lay_out(
    alloc: Global,
    kernel: &Kernel,
    latencies: &[u32],
    times: &[i64],
    chains: &[Chain],
) -> Result<Layout, NoMemory>
    requires latencies { length latencies.now ≡ length kernel.now.nodes }
    requires times { length kernel.now.nodes ≤ length times.now }
    requires begin { (v : ℕ) → v < length kernel.now.nodes → pos 0 ≤ℤ numbers_of times.now v }
    requires most { (v : ℕ) → v < length kernel.now.nodes → numbers_of times.now v ≤ℤ pos (2 ^ 46) }
    requires legal { IsLegal (slice_index latencies.now) (edges_of kernel.now.nodes)
        (numbers_of times.now) }
    requires causal { IsCausal (edges_of kernel.now.nodes) }
    requires chains { AreChains (problem_over (slice_index latencies.now) kernel.now.nodes
        (edges_of kernel.now.nodes)) (numbers_of times.now) chains.now }
    ensures { IfOk result (IsLayout kernel.now.nodes (slice_index latencies.now)
        (numbers_of times.now)) }
{
    let reads = all_reads(alloc, kernel, times)?;
    let waits = all_waits(alloc, latencies.len(), chains)?;
    let order = order(alloc, reads.as_slice())?;
    Ok(Layout {
        reads: List::from_vec(reads),
        pipeline: List::from_vec(latencies.to_vec(alloc)?),
        waits: List::from_vec(waits),
        order,
    })
}
