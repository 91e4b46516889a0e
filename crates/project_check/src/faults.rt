// The first fault of a report, by the judgements on its parts.
ghost use Rattle.std.specs.Prelude.{◌≡◌, ◌≤◌, List, All, IfOk, IfErr, length};
ghost use Rattle.kernel_report.specs.Judging.{IsOf, IsJudged, IsShown};
ghost use Rattle.latency_table.specs.declared.table.Table.{Table as OneTable};
ghost use Rattle.schedule_report.specs.declared.report.ReportKernel.{ReportKernel as OnePart};
ghost use Rattle.schedule_report.specs.Reports.{IsKernelPart};
ghost use Rattle.project_check.specs.Checked.{AreJudged, AllShown};
ghost use Rattle.project_check.specs.Refused.{lines_of, AreOf, MayBeFault, MayHaveFault, MayHaveOther};

use crate::CheckError;
use crate::problems::name_of;
use kernel_report::Judgement;
use schedule_report::ReportKernel;
use std::alloc::Global;
use stream_graph::Kernel;

// How many lines a part of a report has: its first one, one for each node, and two for each edge.
fn lines_of(part: &ReportKernel) -> u64
    requires { IsKernelPart part.now }
    ensures { result ≡ lines_of part.now }
{
    1 + u64::from(part.nodes) + 2 * u64::from(part.edges)
}

/// Refuses a report whose parts are none of these kernels, at the first line that isn't one. The
/// parts begin at line 2.
pub(crate) fn are_of_kernels(
    kernels: &[Kernel],
    parts: &[ReportKernel],
    judgements: &[Judgement],
) -> Result<(), CheckError>
    requires parts { All IsKernelPart parts.now }
    requires few { length kernels.now ≤ 64 }
    requires judged { (table : OneTable) × AreJudged table kernels.now parts.now judgements.now }
    ensures of { (table : OneTable) → AreJudged table kernels.now parts.now judgements.now
        → IfOk result (λ _. AreOf table kernels.now parts.now) }
    ensures other { (table : OneTable) → AreJudged table kernels.now parts.now judgements.now
        → IfErr result (MayHaveOther table kernels.now parts.now) }
{
    let mut line = 2;
    for number in 0..kernels.len() {
        if number == parts.len() {
            return Err(CheckError::Other(line));
        }
        if let Judgement::Mismatch(behind) = judgements[number] {
            return Err(CheckError::Other(line + behind));
        }
        line += lines_of(&parts[number]);
    }
    if parts.len() > kernels.len() {
        return Err(CheckError::Other(line));
    }
    Ok(())
}

// Why a report is refused whose part of this kernel is judged so.
fn fault_of(alloc: Global, kernel: &Kernel, judgement: Judgement) -> Result<(), CheckError>
    ensures good { (table : OneTable) (part : OnePart) → IsOf table kernel.now part
        → IsJudged table kernel.now part judgement
        → IfOk result (λ _. IsShown table kernel.now part) }
    ensures fault { (table : OneTable) (part : OnePart)
        → IsJudged table kernel.now part judgement
        → IfErr result (MayBeFault table kernel.now part) }
{
    match judgement {
        Judgement::Good | Judgement::Mismatch(_) => Ok(()),
        Judgement::BadTimes(arc) => Err(CheckError::BrokenArc(name_of(alloc, kernel)?, arc)),
        Judgement::BadFlow(node) => Err(CheckError::Unbalanced(name_of(alloc, kernel)?, node)),
        Judgement::CostsDiffer(cost, value) => Err(CheckError::CostsDiffer(
            name_of(alloc, kernel)?,
            cost,
            value,
        )),
    }
}

/// Refuses a report with a part that isn't shown, by the first such part.
pub(crate) fn are_shown(
    alloc: Global,
    kernels: &[Kernel],
    judgements: &[Judgement],
) -> Result<(), CheckError>
    requires within { length judgements.now ≤ length kernels.now }
    ensures shown { (table : OneTable) (parts : List OnePart) → AreOf table kernels.now parts
        → AreJudged table kernels.now parts judgements.now
        → IfOk result (λ _. AllShown table kernels.now parts) }
    ensures fault { (table : OneTable) (parts : List OnePart) → AreOf table kernels.now parts
        → AreJudged table kernels.now parts judgements.now
        → IfErr result (MayHaveFault table kernels.now parts) }
{
    for (number, judgement) in judgements.iter().enumerate() {
        fault_of(alloc, &kernels[number], *judgement)?;
    }
    Ok(())
}
