// Judgements on parts of reports on the kernel of three neighbours.
ghost use Rattle.std.specs.Prelude.{◌≡◌, ◌+◌, ◌≤◌, ◌^◌, length};
ghost use Rattle.cycle_find.specs.Constraints.{NeedsWithin};
ghost use Rattle.schedule_problem.specs.Optimum.{IsProblem};
ghost use Rattle.offset_edges.specs.Problems.{problem_of};

use crate::parts::best_part;
use crate::texts::{Change, JUDGED, changed};
use kernel_report::{Judgement, judge};
use latency_table::Table;
use offset_edges::edges;
use offset_edges_tests::sum3;
use schedule_problem::Problem;
use schedule_report::{Report, ReportKernel};
use std::alloc::Global;
use std::process::Abort;
use std::test::Fail;
use stream_graph::Kernel;

// A sum takes a tick.
const SUMS_TAKE_ONE: &str = "{\"add\":[[1,1]]}";

// The judgement on the first part of the report of this text, or `None` where it has no part.
fn judged(
    alloc: Global,
    kernel: &Kernel,
    table: &Table,
    problem: &Problem,
    text: &[u8],
) -> Result<Option<Judgement>, Fail>
    requires problem { problem.now ≡ problem_of table.now kernel.now.nodes }
    requires solvable { IsProblem problem.now }
    requires few { length problem.now.arcs.list ≤ 2 ^ 20 }
    requires small { NeedsWithin (2 ^ 32 + 64) problem.now.arcs.list }
{
    let report = Report::read(alloc, text)?;
    match report.kernels.get(0) {
        Some(part) => Ok(Some(judge(alloc, kernel, table, problem, part)?)),
        None => Ok(None),
    }
}

// After these changes the report's part is judged so.
fn expect_judgement(
    rt: &impl Abort,
    alloc: Global,
    kernel: &Kernel,
    table: &Table,
    problem: &Problem,
    changes: &[Change],
    wanted: Judgement,
) -> Result<(), Fail>
    requires problem { problem.now ≡ problem_of table.now kernel.now.nodes }
    requires solvable { IsProblem problem.now }
    requires few { length problem.now.arcs.list ≤ 2 ^ 20 }
    requires small { NeedsWithin (2 ^ 32 + 64) problem.now.arcs.list }
{
    let text = changed(alloc, changes)?;
    let judgement = judged(alloc, kernel, table, problem, text.as_slice())?;
    assert!(rt; judgement == Some(wanted), "{changes:?}");
    Ok(())
}

#[test]
fn parts_are_judged(rt: HostRuntime) -> Result<(), Fail> {
    let alloc = rt.alloc();
    let kernel = sum3(alloc)?;
    let table = Table::read(alloc, SUMS_TAKE_ONE.as_bytes())?;
    let problem = edges(alloc, &kernel, &table)?;
    for (changes, wanted) in JUDGED {
        expect_judgement(&rt, alloc, &kernel, &table, &problem, changes, *wanted)?;
    }
    Ok(())
}

// The part of the kernel's best schedule is good, and has the times of this one.
fn expect_good(
    rt: &impl Abort,
    alloc: Global,
    kernel: &Kernel,
    table: &Table,
    problem: &Problem,
    sample: &ReportKernel,
) -> Result<(), Fail>
    requires problem { problem.now ≡ problem_of table.now kernel.now.nodes }
    requires solvable { IsProblem problem.now }
    requires few { length problem.now.arcs.list ≤ 2 ^ 20 }
    requires small { NeedsWithin (2 ^ 32 + 64) problem.now.arcs.list }
{
    match best_part(alloc, kernel, table, problem)? {
        Some(part) => {
            assert!(rt; part.bits == 32);
            assert!(rt; part.times == sample.times);
            let judgement = judge(alloc, kernel, table, problem, &part)?;
            assert!(rt; judgement == Judgement::Good);
        }
        None => assert!(rt; false),
    }
    Ok(())
}

#[test]
fn the_part_of_the_best_schedule_is_good(rt: HostRuntime) -> Result<(), Fail> {
    let alloc = rt.alloc();
    let kernel = sum3(alloc)?;
    let table = Table::read(alloc, SUMS_TAKE_ONE.as_bytes())?;
    let problem = edges(alloc, &kernel, &table)?;
    let text = changed(alloc, &[])?;
    let report = Report::read(alloc, text.as_slice())?;
    match report.kernels.get(0) {
        Some(sample) if sample.name.is(kernel.name()) => {
            expect_good(&rt, alloc, &kernel, &table, &problem, sample)
        }
        _ => {
            assert!(rt; false);
            Ok(())
        }
    }
}
