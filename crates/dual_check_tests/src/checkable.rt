// Whether an answer is such as a check takes.
ghost use Rattle.std.specs.Prelude.{◌≡◌, ℕ, ◌<◌, ◌≤◌, ◌^◌, IsTrue, unsigned_abs};
ghost use Rattle.cycle_find.specs.Constraints.{numbers_of, EndsInRange, NeedsWithin};
ghost use Rattle.schedule_problem.specs.Flow.{flow_of, TermsInRange};
ghost use Rattle.dual_check.specs.Verdicts.{IsCheckable};

use cycle_find::Arc;
use schedule_problem::{Answer, Problem, Term};

/// Whether the answer has numbers for all nodes and arcs, none of which is too large, with at most 2^20
/// arcs and needs of at most 2^40.
pub fn is_checkable(problem: &Problem, answer: &Answer) -> bool
    ensures { IsTrue result → IsCheckable problem.now answer.now }
{
    let nodes = problem.arcs.nodes;
    let arcs = problem.arcs.list.as_slice();
    let terms = problem.terms.as_slice();
    let times = answer.times.as_slice();
    let flow = answer.flow.as_slice();
    if arcs.len() > 1 << 20 || terms.len() > 1 << 20 {
        return false;
    }
    if times.len() != nodes as usize || flow.len() != arcs.len() {
        return false;
    }
    are_arcs(arcs, nodes) && are_terms(terms, nodes) && are_times(times) && are_carried(flow)
}

fn are_arcs(arcs: &[Arc], nodes: u32) -> bool
    ensures ends { IsTrue result → EndsInRange nodes arcs.now }
    ensures small { IsTrue result → NeedsWithin (2 ^ 40) arcs.now }
{
    arcs.iter().all(|arc| is_arc(arc, nodes))
}

fn are_terms(terms: &[Term], nodes: u32) -> bool
    ensures { IsTrue result → TermsInRange nodes terms.now }
{
    terms
        .iter()
        .all(|term| term.from < nodes && term.to < nodes)
}

fn are_times(times: &[i64]) -> bool
    ensures { IsTrue result → (v : ℕ) → unsigned_abs (numbers_of times.now v) ≤ 2 ^ 60 }
{
    times.iter().all(|time| time.unsigned_abs() <= 1 << 60)
}

fn are_carried(flow: &[u64]) -> bool
    ensures { IsTrue result → (j : ℕ) → flow_of flow.now j < 2 ^ 63 }
{
    flow.iter().all(|amount| *amount < 1 << 63)
}

fn is_arc(arc: &Arc, nodes: u32) -> bool
    ensures { IsTrue result → (arc.now.from < nodes) × (arc.now.to < nodes) × (unsigned_abs arc.now.need ≤ 2 ^ 40) }
{
    arc.from < nodes && arc.to < nodes && arc.need.unsigned_abs() <= 1 << 40
}
