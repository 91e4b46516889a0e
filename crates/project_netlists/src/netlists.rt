// The modules of a project's kernels, and what a report says of the kernels.
ghost use Rattle.std.specs.Prelude.{◌≡◌, ◌≤◌, length, All, IfOk, IfErr};
ghost use Rattle.kernel_netlist.specs.Netlists.{IsNetlistOf};
ghost use Rattle.kernel_netlist.specs.Scheduled.{IsBestSchedule};
ghost use Rattle.project_netlists.specs.Netlists.{HasPortName, AreKernelNetlists};
ghost use Rattle.project_netlists.specs.Refused.{MayNeedTooMany, MayHaveTooMany};
ghost use Rattle.project_netlists.specs.Scheduled.{AreBestSchedules, all_times};

use crate::NetlistsError;
use kernel_netlist::{KernelNetlist, NetlistError, kernel_netlist};
use kernel_schedule::Schedule;
use latency_table::Table;
use mx_base::List;
use rtl_ir::Module;
use schedule_report::ReportKernel;
use std::alloc::Global;
use stream_graph::Kernel;

/// For each kernel its part of a report, and its module.
#[derive(Drop)]
pub struct KernelNetlists {
    pub parts: List<ReportKernel>,
    pub inners: List<Module>,
}

// The module of the kernel of this number at its least schedule, and its part of a report.
fn netlist_of(
    alloc: Global,
    number: u32,
    kernel: &Kernel,
    table: &Table,
    schedule: &Schedule,
) -> Result<KernelNetlist, NetlistsError>
    requires name { HasPortName kernel.now }
    requires best { IsBestSchedule table.now kernel.now.nodes schedule.now }
    ensures made { IfOk result (IsNetlistOf table.now kernel.now schedule.now.answer.times) }
    ensures refused { IfErr result (MayNeedTooMany table.now kernel.now number) }
{
    match kernel_netlist(alloc, kernel, table, schedule) {
        Ok(made) => Ok(made),
        Err(NetlistError::TooManyBits(bits)) => Err(NetlistsError::TooManyBits(number, bits)),
        Err(NetlistError::NoMemory) => Err(NetlistsError::NoMemory),
    }
}

/// The module and the part of each kernel, in their order, at these schedules. The error is that of
/// the first kernel whose FIFOs need too many bits.
pub(crate) fn netlists(
    alloc: Global,
    kernels: &[Kernel],
    table: &Table,
    schedules: &[Schedule],
) -> Result<KernelNetlists, NetlistsError>
    requires names { All HasPortName kernels.now }
    requires few { length kernels.now ≤ 64 }
    requires best { AreBestSchedules table.now kernels.now schedules.now }
    ensures made { IfOk result (λ made. AreKernelNetlists table.now kernels.now
        (all_times schedules.now) made.parts made.inners) }
    ensures refused { IfErr result (MayHaveTooMany table.now kernels.now) }
{
    let mut parts = List::new(alloc);
    let mut inners = List::new(alloc);
    for (number, kernel) in kernels.iter().enumerate() {
        let made = netlist_of(alloc, number as u32, kernel, table, &schedules[number])?;
        parts.push(made.part)?;
        inners.push(made.inner)?;
    }
    Ok(KernelNetlists { parts, inners })
}
