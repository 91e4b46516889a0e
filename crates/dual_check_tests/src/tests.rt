// Verdicts on answers to one problem.
use crate::checkable::is_checkable;
use crate::rows::{ARCS, BASE, NODES, ROWS, Row, TERMS};
use cycle_find::Arcs;
use dual_check::{Verdict, check};
use mx_base::List;
use schedule_problem::{Answer, Problem};
use std::alloc::{AllocError, Global};
use std::test::Fail;

fn problem(alloc: Global) -> Result<Problem, AllocError> {
    Ok(Problem {
        arcs: Arcs {
            nodes: NODES,
            list: List::from_vec(Vec::from_slice(alloc, ARCS)?),
        },
        terms: List::from_vec(Vec::from_slice(alloc, TERMS)?),
        base: BASE,
    })
}

fn answer_of(alloc: Global, row: &Row) -> Result<Answer, AllocError> {
    Ok(Answer {
        times: List::from_vec(Vec::from_slice(alloc, row.times)?),
        flow: List::from_vec(Vec::from_slice(alloc, row.flow)?),
    })
}

/// What a check says, or `None` where it does not take the answer.
fn judged(problem: &Problem, answer: &Answer, scratch: &mut [i128]) -> Option<Verdict> {
    if is_checkable(problem, answer) && problem.arcs.nodes as usize <= scratch.len() {
        Some(check(problem, answer, scratch))
    } else {
        None
    }
}

#[test]
fn answers_are_judged(rt: HostRuntime) -> Result<(), Fail> {
    let alloc = rt.alloc();
    let problem = problem(alloc)?;
    let mut scratch = [9_i128; 6];
    for (number, row) in ROWS.iter().enumerate() {
        let answer = answer_of(alloc, row)?;
        let verdict = judged(&problem, &answer, &mut scratch);
        assert!(rt; verdict == Some(row.verdict), "row {number}");
    }
    Ok(())
}
