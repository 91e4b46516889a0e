// The check of an answer.
ghost use Rattle.std.specs.Prelude.{◌≤◌, length};
ghost use Rattle.dual_check.specs.Verdicts.{IsCheckable, IsVerdict};

use crate::Verdict;
use crate::balance::first_unbalanced;
use crate::value::value;
use cycle_find::solve_ok;
use schedule_problem::{Answer, Problem, cost};

/// Checks an answer to a problem. `scratch` has at least one place for each node; what it holds
/// counts for nothing. No memory is taken.
///
/// Times are at most 2^60 either way, flows below 2^63, terms at most 2^20, and the number of arcs
/// times the greatest size of a need is at most 2^64.
pub fn check(problem: &Problem, answer: &Answer, scratch: &mut [i128]) -> Verdict
    requires checkable { IsCheckable problem.now answer.now }
    requires room { problem.now.arcs.nodes ≤ length scratch.old }
    ensures { IsVerdict problem.now answer.now result }
{
    let times = answer.times.as_slice();
    let flow = answer.flow.as_slice();
    if let Some(arc) = solve_ok(&problem.arcs, times) {
        return Verdict::BadTimes(arc);
    }
    if let Some(node) = first_unbalanced(problem, flow, scratch) {
        return Verdict::BadFlow(node);
    }
    let cost = cost(problem, times);
    let value = value(problem, flow);
    if cost == value {
        Verdict::Good
    } else {
        Verdict::CostsDiffer(cost, value)
    }
}
