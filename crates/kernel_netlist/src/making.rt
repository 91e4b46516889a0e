// The module of a kernel at its least schedule.
ghost use Rattle.std.specs.Prelude.{◌≡◌, ◌≤◌, length, IfOk, IfErr, true};
ghost use Rattle.cycle_find.specs.Constraints.{numbers_of};
ghost use Rattle.kernel_calls.specs.Laws.{is_port_name};
ghost use Rattle.kernel_rtl.specs.Planned.{IsPlanned};
ghost use Rattle.kernel_netlist.specs.Modules.{IsModuleOf};
ghost use Rattle.kernel_netlist.specs.Netlists.{IsNetlistOf};
ghost use Rattle.kernel_netlist.specs.Refused.{IsRefused};
ghost use Rattle.kernel_netlist.specs.Scheduled.{IsBestSchedule};

use crate::NetlistError;
use kernel_layout::Layout;
use kernel_plan::plan;
use kernel_report::part_of;
use kernel_rtl::kernel_module;
use kernel_schedule::Schedule;
use latency_table::Table;
use mx_base::NoMemory;
use rtl_ir::Module;
use schedule_report::ReportKernel;
use std::alloc::Global;
use stream_graph::Kernel;

/// The module of a kernel at its least schedule, and what a report says of the kernel: the times of
/// its schedule, the bits that the schedule's FIFOs hold, and a flow that shows that these are the
/// fewest.
#[derive(Drop)]
pub struct KernelNetlist {
    pub part: ReportKernel,
    pub inner: Module,
}

// The module of a kernel, by a layout of it at these times.
fn module_at(
    alloc: Global,
    kernel: &Kernel,
    layout: &Layout,
    times: &[i64],
) -> Result<Module, NoMemory>
    requires name { is_port_name kernel.now.name ≡ true }
    requires times { length kernel.now.nodes ≤ length times.now }
    requires planned { IsPlanned kernel.now.nodes (numbers_of times.now) layout.now }
    ensures { IfOk result (IsModuleOf kernel.now times.now layout.now) }
{
    let inner = kernel_module(alloc, kernel, layout, times)?;
    prove!(inner.nets.len() <= usize::MAX);
    prove!(inner.mems.len() <= usize::MAX);
    Ok(inner)
}

/// The module of a kernel at the schedule that `best_schedule` gave of it by this table, with what a
/// report says of this schedule, whose FIFOs hold at most 2^28 bits. The kernel's name is a letter
/// and then letters, digits and `_`.
///
/// Errors: `TooManyBits` exactly where the FIFOs of each schedule hold more than 2^28 bits, with the
/// fewest that they may hold; else want of memory.
pub fn kernel_netlist(
    alloc: Global,
    kernel: &Kernel,
    table: &Table,
    schedule: &Schedule,
) -> Result<KernelNetlist, NetlistError>
    requires name { is_port_name kernel.now.name ≡ true }
    requires best { IsBestSchedule table.now kernel.now.nodes schedule.now }
    ensures made { IfOk result (IsNetlistOf table.now kernel.now schedule.now.answer.times) }
    ensures refused { IfErr result (IsRefused table.now kernel.now.nodes) }
{
    let plan = plan(alloc, kernel, schedule)?;
    let part = part_of(alloc, kernel, table, schedule, plan.bits)?;
    let times = schedule.answer.times.as_slice();
    let inner = module_at(alloc, kernel, &plan.layout, times)?;
    Ok(KernelNetlist { part, inner })
}
