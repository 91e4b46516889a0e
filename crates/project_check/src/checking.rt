// The judgement on a report of a project's kernels.
ghost use Rattle.std.specs.Prelude.{◌≤◌, length, All, IfOk, IfErr};
ghost use Rattle.kernel_report.specs.Judging.{ShownAreLeast};
ghost use Rattle.schedule_report.specs.Reading.{Says};
ghost use Rattle.schedule_report.specs.Reports.{IsKernelPart};
ghost use Rattle.project_check.specs.Checked.{AreProblems, AreJudged, IsCheckedReport};
ghost use Rattle.project_check.specs.Refused.{IsRefused, MayBeWrong};

use crate::CheckError;
use crate::faults::{are_of_kernels, are_shown};
use crate::problems::problems;
use kernel_report::{Judgement, judge, shown_are_least};
use latency_table::Table;
use mx_base::NoMemory;
use schedule_problem::Problem;
use schedule_report::{Report, ReportError, ReportKernel};
use std::alloc::Global;
use stream_graph::Kernel;

// The report that these bytes are.
fn read(alloc: Global, bytes: &[u8]) -> Result<Report, CheckError>
    ensures says { IfOk result (Says bytes.now) }
    ensures wrong { IfErr result (MayBeWrong bytes.now) }
{
    match Report::read(alloc, bytes) {
        Ok(report) => Ok(report),
        Err(ReportError::Shape(line)) => Err(CheckError::NoReport(line)),
        Err(ReportError::NoMemory) => Err(CheckError::NoMemory),
    }
}

// The judgement on each of these parts that stands at the place of a kernel.
fn judgements(
    alloc: Global,
    kernels: &[Kernel],
    table: &Table,
    problems: &[Problem],
    parts: &[ReportKernel],
) -> Result<Vec<Judgement>, NoMemory>
    requires problems { AreProblems table.now kernels.now problems.now }
    requires parts { All IsKernelPart parts.now }
    ensures { IfOk result (λ judgements.
        AreJudged table.now kernels.now parts.now judgements.items) }
{
    let mut all = Vec::new(alloc);
    for (number, part) in parts.iter().enumerate() {
        if number < kernels.len() {
            all.push(judge(alloc, &kernels[number], table, &problems[number], part)?)?;
        }
    }
    Ok(all)
}

/// A part of a report that is shown for one of these kernels, by a latency table, says times that are
/// a legal schedule of it, and no legal schedule has FIFOs of fewer bits. The function changes
/// nothing: its contract is the law.
pub fn all_shown_are_least(kernels: &[Kernel], table: &Table)
    ensures { All (ShownAreLeast table.now) kernels.now }
{
    for kernel in kernels {
        shown_are_least(kernel, table);
    }
}

/// Judges the bytes of a report on at most 64 kernels: the report, where it has a part for each kernel, in
/// their order, and each part is shown, so that its bits are the fewest.
///
/// Errors, of which the first that stands is answered: `Problem` of the first kernel that has no
/// problem of schedules; `NoReport` where the bytes are no report; `Other` where a line is none of a
/// report on these kernels, or a part is missing or one more; and kernel by kernel `BrokenArc`,
/// `Unbalanced` and `CostsDiffer`. `NoMemory` says nothing.
pub fn check_report(
    alloc: Global,
    kernels: &[Kernel],
    table: &Table,
    bytes: &[u8],
) -> Result<Report, CheckError>
    requires few { length kernels.now ≤ 64 }
    ensures checked { IfOk result (IsCheckedReport table.now kernels.now bytes.now) }
    ensures refused { IfErr result (IsRefused table.now kernels.now bytes.now) }
{
    let problems = problems(alloc, kernels, table)?;
    let report = read(alloc, bytes)?;
    let parts = report.kernels.as_slice();
    let judgements = judgements(alloc, kernels, table, problems.as_slice(), parts)?;
    are_of_kernels(kernels, parts, judgements.as_slice())?;
    are_shown(alloc, kernels, judgements.as_slice())?;
    all_shown_are_least(kernels, table);
    Ok(report)
}
