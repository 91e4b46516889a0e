// Worked examples: least bits and times, the flow's count of paths, and the chains.
ghost use Rattle.std.specs.Prelude.{◌≡◌, ℕ, ◌≤◌, ◌^◌, length, unsigned_abs, IfOk, IsTrue};
ghost use Rattle.cycle_find.specs.Constraints.{numbers_of, NeedsWithin};
ghost use Rattle.schedule_problem.specs.Flow.{TermsInRange};
ghost use Rattle.schedule_problem.specs.Optimum.{IsBest, IsProblem};

use crate::problems::{Edge, is_problem, problem_of};
use crate::rows::{NEIGHBOURS_COSTS, ROWS, SQUARE_AND_WORD, SUM_OF_NEIGHBOURS};
use cycle_find::{SolveError, solve_ok};
use fifo_sharing::{Chain, share};
use schedule_flow::{BestError, best, best_counted};
use schedule_problem::{Answer, Problem, cost};
use std::alloc::Global;
use std::test::Fail;

/// The answer of `best_counted` and its count of paths, or why there is none.
fn answer_of(alloc: Global, problem: &Problem) -> Result<(Answer, u64), &'static str>
    requires problem { IsProblem problem.now }
    requires small { NeedsWithin (2 ^ 40) problem.now.arcs.list }
    ensures best { IfOk result (λ r. IsBest problem.now r.0) }
    ensures small { IfOk result (λ r. (v : ℕ) → unsigned_abs (numbers_of r.0.times v) ≤ 2 ^ 60) }
    ensures ends { IfOk result (λ r. TermsInRange (length r.0.times) problem.now.terms) }
{
    match best_counted(alloc, problem) {
        Ok((answer, network)) => Ok((answer, network.sends())),
        Err(BestError::Cycle(_)) => Err("a cycle"),
        Err(BestError::NoMemory) => Err("no memory"),
    }
}

/// What the earliest legal times cost.
fn cost_of_earliest(alloc: Global, problem: &Problem) -> Result<i128, &'static str>
    requires problem { IsProblem problem.now }
    requires small { NeedsWithin (2 ^ 40) problem.now.arcs.list }
{
    match cycle_find::solve(alloc, &problem.arcs) {
        Ok(times) => Ok(cost(problem, times.as_slice())),
        Err(SolveError::Cycle(_)) => Err("a cycle"),
        Err(SolveError::NoMemory) => Err("no memory"),
    }
}

/// The number of arcs of the cycle for which `best` finds no times.
fn cycle_of(alloc: Global, problem: &Problem) -> Option<usize>
    requires { IsProblem problem.now }
{
    match best(alloc, problem) {
        Err(BestError::Cycle(cycle)) => Some(cycle.arcs.len()),
        _ => None,
    }
}

/// What times cost, and the first arc that they break. Numbers that are too many, too few or too great
/// are no times.
fn judged(problem: &Problem, times: &[i64]) -> Option<(i128, Option<u32>)>
    requires { IsProblem problem.now }
{
    if times.len() == problem.arcs.nodes as usize && are_small(times) {
        Some((cost(problem, times), solve_ok(&problem.arcs, times)))
    } else {
        None
    }
}

fn are_small(times: &[i64]) -> bool
    ensures { IsTrue result → (v : ℕ) → unsigned_abs (numbers_of times.now v) ≤ 2 ^ 60 }
{
    times.iter().all(|time| time.unsigned_abs() <= 1 << 60)
}

fn is_chain(chain: &Chain, producer: u32, words: u64, taps: &[u64]) -> bool {
    chain.producer == producer && chain.words == words && chain.taps.as_slice() == taps
}

#[test]
fn rows_are_scheduled(rt: HostRuntime) -> Result<(), Fail> {
    let alloc = rt.alloc();
    for (number, row) in ROWS.iter().enumerate() {
        let problem = problem_of(alloc, row.nodes, row.edges, row.producers, row.base)?;
        assert!(rt; is_problem(&problem));
        let (answer, sends) = answer_of(alloc, &problem)?;
        let times = answer.times.as_slice();
        assert!(rt; cost(&problem, times) == row.bits, "row {number}");
        assert!(rt; times.starts_with(row.times), "row {number}: {times:?}");
        let paths = row.producers.iter().fold(
            0u64,
            |sum, (_, width, _)| sum.saturating_add(u64::from(*width)),
        );
        assert!(rt; sends <= paths, "row {number}: {sends}");
        let chains = share(alloc, &problem, times)?;
        assert!(rt; chains.len() == row.chains.len(), "row {number}");
        for (chain, (producer, words, taps)) in chains.as_slice().iter().zip(row.chains) {
            assert!(rt;
                is_chain(chain, *producer, *words, taps),
                "row {number}: {chain:?}"
            );
        }
    }
    Ok(())
}

/// A sum of latency 2 with the sum one tick before it.
const TOO_SLOW: &[Edge] = &[(2, 0, 2, -1), (0, 1, 0, 0), (1, 2, 0, 0)];

#[test]
fn cycle_is_found(rt: HostRuntime) -> Result<(), Fail> {
    let alloc = rt.alloc();
    let problem = problem_of(alloc, 3, TOO_SLOW, &[(2, 32, 0)], 64)?;
    assert!(rt; is_problem(&problem));
    assert!(rt; cycle_of(alloc, &problem) == Some(3));
    Ok(())
}

#[test]
fn earliest_times_can_cost_more(rt: HostRuntime) -> Result<(), Fail> {
    let alloc = rt.alloc();
    let row = &SQUARE_AND_WORD;
    let problem = problem_of(alloc, row.nodes, row.edges, row.producers, row.base)?;
    assert!(rt; is_problem(&problem));
    assert!(rt; cost_of_earliest(alloc, &problem)? == 192);
    Ok(())
}

#[test]
fn times_have_their_costs(rt: HostRuntime) -> Result<(), Fail> {
    let alloc = rt.alloc();
    let row = &SUM_OF_NEIGHBOURS;
    let problem = problem_of(alloc, row.nodes, row.edges, row.producers, row.base)?;
    assert!(rt; is_problem(&problem));
    for (times, bits, broken) in NEIGHBOURS_COSTS {
        assert!(rt;
            judged(&problem, times) == Some((*bits, *broken)),
            "{times:?}"
        );
    }
    Ok(())
}
