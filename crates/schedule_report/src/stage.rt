// How far a report has been read, and what the next line changes of that.
ghost use Rattle.std.specs.Prelude.{◌≡◌, IfOk, IfSome, IfNone, ℕ, List};
ghost use Rattle.schedule_report.specs.declared.report.ReportKernel.{ReportKernel};
ghost use Rattle.schedule_report.specs.declared.report.Report.{Report};
ghost use Rattle.schedule_report.specs.declared.stage.Stage.{Stage};
ghost use Rattle.schedule_report.specs.declared.stage.Stage.TheVariants.{Start, Between, Within, Done};
ghost use Rattle.schedule_report.specs.Reports.{kernel_line};
ghost use Rattle.schedule_report.specs.Stages.{IsHead, Next, settled};

use crate::fields::{head_of, last, time};
use crate::report::{Report, ReportKernel};
use mx_base::{List, NoMemory, Text};
use std::alloc::Global;

/// How far a report has been read.
#[derive(Drop)]
pub enum Stage {
    /// No line yet.
    Start,
    /// The lines of these kernels, which are whole.
    Between(List<ReportKernel>),
    /// The same, and the first lines of a kernel that has times or flows to come.
    Within(List<ReportKernel>, ReportKernel),
    /// All lines.
    Done(List<ReportKernel>),
}

impl Stage {
    /// The stage behind a line, or `None` where no report goes on with it.
    pub fn next(self, alloc: Global, line: &[u8]) -> Result<Option<Stage>, NoMemory>
        ensures some { IfOk result (λ found. IfSome found (λ new. Next self line.now new)) }
        ensures none { IfOk result (λ found. IfNone found ((new : Stage) → Next self line.now new → ⊥)) }
    {
        match self {
            Stage::Start => Ok(after_start(alloc, line)),
            Stage::Between(kernels) => after_kernels(alloc, kernels, line),
            Stage::Within(kernels, kernel) => within_kernel(kernels, kernel, line),
            Stage::Done(_) => Ok(None),
        }
    }

    /// The report, where the last line was read.
    pub fn report(self) -> Option<Report>
        ensures some { IfSome result (λ r. self ≡ Done r.kernels) }
        ensures none { IfNone result ((r : Report) → self ≡ Done r.kernels → ⊥) }
    {
        match self {
            Stage::Done(kernels) => Some(Report { kernels }),
            _ => None,
        }
    }
}

/// The stage behind the first line.
fn after_start(alloc: Global, line: &[u8]) -> Option<Stage>
    ensures some { IfSome result (λ new. Next Start line.now new) }
    ensures none { IfNone result ((new : Stage) → Next Start line.now new → ⊥) }
{
    if line == b"maxjc-report 1".as_slice() {
        Some(Stage::Between(List::new(alloc)))
    } else {
        None
    }
}

/// The stage behind whole kernels and a line.
fn after_kernels(
    alloc: Global,
    kernels: List<ReportKernel>,
    line: &[u8],
) -> Result<Option<Stage>, NoMemory>
    ensures some { IfOk result (λ found. IfSome found (λ new. Next (Between kernels) line.now new)) }
    ensures none { IfOk result (λ found. IfNone found ((new : Stage) → Next (Between kernels) line.now new → ⊥)) }
{
    if line == b"end".as_slice() {
        return Ok(Some(Stage::Done(kernels)));
    }
    match kernel(alloc, line)? {
        Some(kernel) => Ok(Some(settled(kernels, kernel)?)),
        None => Ok(None),
    }
}

/// The kernel that a line begins.
fn kernel(alloc: Global, line: &[u8]) -> Result<Option<ReportKernel>, NoMemory>
    ensures some { IfOk result (λ found. IfSome found (λ k. IsHead k × (line.now ≡ kernel_line k))) }
    ensures none { IfOk result (λ found. IfNone found ((k : ReportKernel) → IsHead k → line.now ≡ kernel_line k → ⊥)) }
{
    match head_of(line) {
        Some(head) => Ok(Some(ReportKernel {
            name: Text::from_vec(head.name.to_vec(alloc)?),
            nodes: head.nodes,
            edges: head.edges,
            bits: head.bits,
            times: List::new(alloc),
            flow: List::new(alloc),
        })),
        None => Ok(None),
    }
}

/// The stage behind the first lines of a kernel and a line.
fn within_kernel(
    kernels: List<ReportKernel>,
    kernel: ReportKernel,
    line: &[u8],
) -> Result<Option<Stage>, NoMemory>
    ensures some { IfOk result (λ found. IfSome found (λ new. Next (Within kernels kernel) line.now new)) }
    ensures none { IfOk result (λ found. IfNone found ((new : Stage) → Next (Within kernels kernel) line.now new → ⊥)) }
{
    let mut kernel = kernel;
    if kernel.times.len() < kernel.nodes as usize {
        match time(line) {
            Some(time) => {
                kernel.times.push(time)?;
                Ok(Some(settled(kernels, kernel)?))
            }
            None => Ok(None),
        }
    } else {
        match last(line, b"flow ", 0x8000_0000_0000_0000) {
            Some(flow) => {
                kernel.flow.push(flow)?;
                Ok(Some(settled(kernels, kernel)?))
            }
            None => Ok(None),
        }
    }
}

/// The stage behind these kernels and this one, which may be whole now.
fn settled(kernels: List<ReportKernel>, kernel: ReportKernel) -> Result<Stage, NoMemory>
    ensures { IfOk result (λ stage. stage ≡ settled kernels kernel) }
{
    let mut kernels = kernels;
    if kernel.times.len() == kernel.nodes as usize
        && kernel.flow.len() == 2 * (kernel.edges as usize)
    {
        kernels.push(kernel)?;
        Ok(Stage::Between(kernels))
    } else {
        Ok(Stage::Within(kernels, kernel))
    }
}
