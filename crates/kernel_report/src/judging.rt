// The judgement on a part of a report.
ghost use Rattle.std.specs.Prelude.{◌≡◌, ◌≤◌, ◌^◌, ◌+◌, ◌*◌, ◌↔◌, ℕ, pos, length, IsTrue, IfOk, IfNone, IfSome};
ghost use Rattle.cycle_find.specs.Constraints.{numbers_of, NeedsWithin};
ghost use Rattle.schedule_problem.specs.Optimum.{IsProblem};
ghost use Rattle.offset_edges.specs.Edges.{edges_of};
ghost use Rattle.offset_edges.specs.Problems.{problem_of};
ghost use Rattle.schedule_report.specs.Reports.{IsKernelPart};
ghost use Rattle.kernel_report.specs.Judging.{IsJudged, IsOf, IsTimely, times_in};
ghost use Rattle.kernel_report.specs.Steps.{HasCounts, IsFirstUntimely, judgement_of};

use crate::Judgement;
use crate::times::whole_times;
use dual_check::{Verdict, check};
use latency_table::Table;
use mx_base::{List, NoMemory};
use schedule_problem::{Answer, Problem, cost};
use schedule_report::ReportKernel;
use std::alloc::Global;
use stream_graph::Kernel;

// The last time that a schedule has, 2^46.
const LAST_TIME: i64 = 1 << 46;

/// Judges a part of a report by a kernel and the problem of its schedules, as `edges` makes it. The
/// only error is want of memory.
pub fn judge(
    alloc: Global,
    kernel: &Kernel,
    table: &Table,
    problem: &Problem,
    part: &ReportKernel,
) -> Result<Judgement, NoMemory>
    requires problem { problem.now ≡ problem_of table.now kernel.now.nodes }
    requires solvable { IsProblem problem.now }
    requires few { length problem.now.arcs.list ≤ 2 ^ 20 }
    requires small { NeedsWithin (2 ^ 32 + 64) problem.now.arcs.list }
    requires part { IsKernelPart part.now }
    ensures { IfOk result (IsJudged table.now kernel.now part.now) }
{
    if !has_counts(kernel, problem, part) {
        return Ok(Judgement::Mismatch(0));
    }
    let times = whole_times(alloc, kernel, part.times.as_slice())?;
    if cost(problem, times.as_slice()) != part.bits as i128 {
        return Ok(Judgement::Mismatch(0));
    }
    match first_untimely(part) {
        Some(node) => Ok(Judgement::Mismatch(node as u64 + 1)),
        None => checked(alloc, kernel, table, problem, part, times),
    }
}

// Whether the part has the kernel's name and counts.
fn has_counts(kernel: &Kernel, problem: &Problem, part: &ReportKernel) -> bool
    requires problem { length problem.now.arcs.list ≡ 2 * length (edges_of kernel.now.nodes) }
    ensures { IsTrue result ↔ HasCounts kernel.now part.now }
{
    part.name.is(kernel.name())
        && part.nodes == kernel.count()
        && 2 * part.edges as u64 == problem.arcs.list.len() as u64
}

// The first node whose time is below 0 or above 2^46.
fn first_untimely(part: &ReportKernel) -> Option<usize>
    ensures none { IfNone result ((v : ℕ) → IsTimely part.now v) }
    ensures some { IfSome result (IsFirstUntimely part.now) }
{
    let times = part.times.as_slice();
    for node in 0..times.len() {
        if times[node] < 0 || times[node] > LAST_TIME {
            return Some(node);
        }
    }
    None
}

// The judgement on a part of the kernel by its flow, where these are the times of the problem.
fn checked(
    alloc: Global,
    kernel: &Kernel,
    table: &Table,
    problem: &Problem,
    part: &ReportKernel,
    times: List<i64>,
) -> Result<Judgement, NoMemory>
    requires problem { problem.now ≡ problem_of table.now kernel.now.nodes }
    requires solvable { IsProblem problem.now }
    requires few { length problem.now.arcs.list ≤ 2 ^ 20 }
    requires small { NeedsWithin (2 ^ 32 + 64) problem.now.arcs.list }
    requires part { IsKernelPart part.now }
    requires of { IsOf table.now kernel.now part.now }
    requires counted { length times ≡ 2 * length kernel.now.nodes }
    requires times { (v : ℕ) → numbers_of times v ≡ times_in kernel.now part.now v }
    ensures { IfOk result (IsJudged table.now kernel.now part.now) }
{
    let _kernel = kernel;
    let _table = table;
    let answer = Answer {
        times,
        flow: List::from_vec(part.flow.as_slice().to_vec(alloc)?),
    };
    let mut scratch = vec![in alloc; 0i128; problem.arcs.nodes as usize]?;
    Ok(judgement_of(check(problem, &answer, scratch.as_mut_slice())))
}

// The judgement that a verdict makes.
fn judgement_of(verdict: Verdict) -> Judgement
    ensures { result ≡ judgement_of verdict }
{
    match verdict {
        Verdict::Good => Judgement::Good,
        Verdict::BadTimes(arc) => Judgement::BadTimes(arc),
        Verdict::BadFlow(node) => Judgement::BadFlow(node),
        Verdict::CostsDiffer(cost, value) => Judgement::CostsDiffer(cost, value),
    }
}
