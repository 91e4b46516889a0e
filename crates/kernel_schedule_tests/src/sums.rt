// What times cost and flows are worth, summed anew from a problem.
use schedule_problem::{Problem, Term};

fn time(times: &[i64], node: u32) -> i128 {
    times.get(node as usize).map_or(0, |t| i128::from(*t))
}

fn cost_of_term(times: &[i64], term: &Term) -> i128 {
    i128::from(term.weight).wrapping_mul(time(times, term.to).wrapping_sub(time(times, term.from)))
}

/// The bits of all FIFOs at these times.
pub fn bits_of(problem: &Problem, times: &[i64]) -> i128 {
    let mut bits = 0_i128.wrapping_sub(i128::from(problem.base));
    for term in problem.terms.as_slice() {
        bits = bits.wrapping_add(cost_of_term(times, term));
    }
    bits
}

/// What a flow is worth.
pub fn value_of(problem: &Problem, flow: &[u64]) -> i128 {
    let mut value = 0_i128.wrapping_sub(i128::from(problem.base));
    for (arc, sent) in problem.arcs.list.as_slice().iter().zip(flow) {
        value = value.wrapping_add(i128::from(*sent).wrapping_mul(i128::from(arc.need)));
    }
    value
}

/// How much more a flow brings to a node than the node passes on and keeps; 0 where it balances.
pub fn excess_of(problem: &Problem, flow: &[u64], node: u32) -> i128 {
    let mut excess = 0_i128;
    for (arc, sent) in problem.arcs.list.as_slice().iter().zip(flow) {
        if arc.to == node {
            excess = excess.wrapping_add(i128::from(*sent));
        }
        if arc.from == node {
            excess = excess.wrapping_sub(i128::from(*sent));
        }
    }
    for term in problem.terms.as_slice() {
        if term.from == node {
            excess = excess.wrapping_add(i128::from(term.weight));
        }
        if term.to == node {
            excess = excess.wrapping_sub(i128::from(term.weight));
        }
    }
    excess
}
