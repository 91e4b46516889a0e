// The layout of a kernel's module at its least schedule.
ghost use Rattle.std.specs.Prelude.{◌≡◌, ◌*◌, ◌^◌, ◌≤◌, ◌≤ℤ◌, ℕ, pos, length, slice_index, IfOk, IfErr};
ghost use Rattle.cycle_find.specs.Constraints.{numbers_of, IsSolvable};
ghost use Rattle.kernel_layout.specs.Layouts.{IsLayout};
ghost use Rattle.kernel_stages.specs.Numbers.{register_count, wait_count, ring_count};
ghost use Rattle.kernel_stages.specs.Numbers.{pipeline_bits, all_word_bits};
ghost use Rattle.kernel_rtl.specs.Planned.{IsPlanned, widths_of};
ghost use Rattle.kernel_plan.specs.Planned.{IsScheduled};
ghost use Rattle.kernel_plan.specs.Refused.{bits_in, IsRefused};
ghost use Rattle.kernel_plan.specs.Stored.{latency_bits};
ghost use Rattle.kernel_wiring.specs.OneNode.{operand_count};

use crate::{Plan, PlanError};
use fifo_sharing::share;
use kernel_layout::lay_out;
use kernel_schedule::Schedule;
use schedule_problem::cost;
use std::alloc::Global;
use stream_graph::Kernel;

/// The most bits that the FIFOs of a kernel's schedule may hold.
const MOST_BITS: i128 = 1 << 28;

/// The layout of a kernel's module at its least schedule by some table of latencies, whose times
/// are at most 2^46, with the bits of the schedule's FIFOs: the words that wait by the layout are
/// those of these FIFOs, and its pipelines have a register for each advance of a latency, at most
/// 64 for a node. There is at most one wait for an operand. Errors: `TooManyBits`, with the bits,
/// exactly where the FIFOs hold more than 2^28 bits; else want of memory.
pub fn plan(alloc: Global, kernel: &Kernel, schedule: &Schedule) -> Result<Plan, PlanError>
    requires least { IsScheduled kernel.now.nodes schedule.now }
    requires arcs { IsSolvable schedule.now.problem.arcs }
    requires most { (v : ℕ) → numbers_of schedule.now.answer.times v ≤ℤ pos (2 ^ 46) }
    ensures laid { IfOk result (λ made. IsLayout kernel.now.nodes
        (slice_index schedule.now.latencies) (numbers_of schedule.now.answer.times) made.layout) }
    ensures planned { IfOk result (λ made. IsPlanned kernel.now.nodes
        (numbers_of schedule.now.answer.times) made.layout) }
    ensures bits { IfOk result (λ made. pos made.bits ≡ bits_in kernel.now.nodes schedule.now) }
    ensures fits { IfOk result (λ made. made.bits ≤ 2 ^ 28) }
    ensures stored { IfOk result (λ made.
        all_word_bits (widths_of kernel.now.nodes) made.layout.waits ≡ made.bits) }
    ensures pipelines { IfOk result (λ made.
        pipeline_bits (widths_of kernel.now.nodes) made.layout.pipeline
        ≡ latency_bits (slice_index schedule.now.latencies) kernel.now.nodes) }
    ensures registers { IfOk result (λ made.
        register_count made.layout.pipeline ≤ 64 * length kernel.now.nodes) }
    ensures waits { IfOk result (λ made.
        wait_count made.layout.waits ≤ operand_count kernel.now.nodes) }
    ensures rings { IfOk result (λ made.
        ring_count made.layout.waits ≤ operand_count kernel.now.nodes) }
    ensures refused { IfErr result (IsRefused (bits_in kernel.now.nodes schedule.now)) }
{
    let times = schedule.answer.times.as_slice();
    let bits = cost(&schedule.problem, times);
    if bits > MOST_BITS {
        return Err(PlanError::TooManyBits(bits.unsigned_abs()));
    }
    let chains = share(alloc, &schedule.problem, times)?;
    let latencies = schedule.latencies.as_slice();
    let layout = lay_out(alloc, kernel, latencies, times, chains.as_slice())?;
    Ok(Plan {
        bits: bits as u64,
        layout,
    })
}
