// Problems from the edges of kernels, and a test that they are such as the solver takes.
ghost use Rattle.std.specs.Prelude.{◌≡◌, ℕ, ◌<◌, ◌≤◌, ◌^◌, IsTrue, length, unsigned_abs};
ghost use Rattle.cycle_find.specs.Constraints.{EndsInRange, NeedsWithin};
ghost use Rattle.schedule_problem.specs.Flow.{TermsInRange, term_at};
ghost use Rattle.schedule_problem.specs.Optimum.{HasArc, HasRoute, IsProblem};

use cycle_find::{Arc, Arcs};
use mx_base::List;
use schedule_problem::{Problem, Term};
use std::alloc::{AllocError, Global};

/// An edge of a kernel: its producer, its consumer, the producer's latency, and the offset at which the
/// consumer reads, both in ticks.
pub type Edge = (u32, u32, i32, i32);

/// A node with consumers: the node, its width in bits, and one of its consumers.
pub type Producer = (u32, u32, u32);

/// The problem of a kernel: node `u` is its node `u`, and node `nodes + u` stands for the last tick in
/// which the word of node `u` is read.
pub fn problem_of(
    alloc: Global,
    nodes: u16,
    edges: &[Edge],
    producers: &[Producer],
    base: u64,
) -> Result<Problem, AllocError> {
    let nodes = u32::from(nodes);
    let mut arcs = Vec::new(alloc);
    for (producer, consumer, latency, offset) in edges {
        arcs.push(Arc {
            from: *producer,
            to: *consumer,
            need: i64::from(*latency) + i64::from(*offset),
        })?;
        arcs.push(Arc {
            from: *consumer,
            to: nodes.wrapping_add(*producer),
            need: -i64::from(*offset),
        })?;
    }
    let mut terms = Vec::new(alloc);
    for (node, width, consumer) in producers {
        terms.push(Term {
            from: *node,
            to: nodes.wrapping_add(*node),
            weight: *width,
            mid: *consumer,
        })?;
    }
    Ok(Problem {
        arcs: Arcs {
            nodes: 2 * nodes,
            list: List::from_vec(arcs),
        },
        terms: List::from_vec(terms),
        base,
    })
}

/// Whether the problem is such as the solver takes, with small needs.
pub fn is_problem(problem: &Problem) -> bool
    ensures problem { IsTrue result → IsProblem problem.now }
    ensures small { IsTrue result → NeedsWithin (2 ^ 40) problem.now.arcs.list }
{
    let nodes = problem.arcs.nodes;
    let arcs = problem.arcs.list.as_slice();
    let terms = problem.terms.as_slice();
    if nodes > 1 << 16 || arcs.len() >= 1 << 31 || terms.len() > 1 << 20 {
        return false;
    }
    are_arcs(arcs, nodes) && are_terms(arcs, terms, nodes)
}

fn are_arcs(arcs: &[Arc], nodes: u32) -> bool
    ensures ends { IsTrue result → EndsInRange nodes arcs.now }
    ensures small { IsTrue result → NeedsWithin (2 ^ 40) arcs.now }
{
    arcs.iter().all(|arc| is_arc(arc, nodes))
}

fn are_terms(arcs: &[Arc], terms: &[Term], nodes: u32) -> bool
    ensures ends { IsTrue result → TermsInRange nodes terms.now }
    ensures routes { IsTrue result → (t : ℕ) → t < length terms.now → HasRoute arcs.now (term_at terms.now t) }
{
    terms.iter().all(|term| is_term(arcs, term, nodes))
}

fn is_arc(arc: &Arc, nodes: u32) -> bool
    ensures { IsTrue result → (arc.now.from < nodes) × (arc.now.to < nodes) × (unsigned_abs arc.now.need ≤ 2 ^ 40) }
{
    arc.from < nodes && arc.to < nodes && arc.need.unsigned_abs() <= 1 << 40
}

fn is_term(arcs: &[Arc], term: &Term, nodes: u32) -> bool
    ensures { IsTrue result → (term.now.from < nodes) × (term.now.to < nodes) × HasRoute arcs.now term.now }
{
    let has_route = if term.mid == term.to {
        has_arc(arcs, term.from, term.to)
    } else {
        has_arc(arcs, term.from, term.mid) && has_arc(arcs, term.mid, term.to)
    };
    term.from < nodes && term.to < nodes && has_route
}

fn has_arc(arcs: &[Arc], from: u32, to: u32) -> bool
    ensures { IsTrue result → HasArc arcs.now from to }
{
    arcs.iter().any(|arc| arc.from == from && arc.to == to)
}
