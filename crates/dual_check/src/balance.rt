// Whether each node sends its surplus more than it takes.
ghost use Rattle.std.specs.Prelude.{◌≡◌, ℕ, ◌<◌, ◌≤◌, ◌^◌, pos, ◌+ℤ◌, ◌-ℤ◌, length, unsigned_abs, IfNone, IfSome};
ghost use Rattle.cycle_find.specs.Constraints.{numbers_of, EndsInRange};
ghost use Rattle.schedule_problem.specs.Flow.{flow_of, sent, taken, surplus, excess, IsFlow, TermsInRange};
ghost use Rattle.dual_check.specs.Balance.{at_node, IsFirstOther};

use cycle_find::arc_number;
use schedule_problem::{Problem, term_number};

/// The first node that sends another surplus than its own, or `None` where the flow is one. What the
/// scratch holds counts for nothing; its first places, one for each node, come to hold what the nodes
/// still have to send.
pub fn first_unbalanced(problem: &Problem, flow: &[u64], scratch: &mut [i128]) -> Option<u32>
    requires room { problem.now.arcs.nodes ≤ length scratch.old }
    requires few { length problem.now.arcs.list < 2 ^ 32 }
    requires ends { EndsInRange problem.now.arcs.nodes problem.now.arcs.list }
    requires few_terms { length problem.now.terms ≤ 2 ^ 20 }
    requires term_ends { TermsInRange problem.now.arcs.nodes problem.now.terms }
    requires one_each { length flow.now ≡ length problem.now.arcs.list }
    requires carried { (j : ℕ) → flow_of flow.now j < 2 ^ 63 }
    ensures balanced { IfNone result (IsFlow problem.now (flow_of flow.now)) }
    ensures unbalanced { IfSome result (IsFirstOther (excess problem.now (flow_of flow.now)) problem.now.arcs.nodes) }
{
    let rest = &mut scratch[..problem.arcs.nodes as usize];
    rest.fill(0);
    carry(problem, flow, rest);
    weigh(problem, rest);
    first_other(rest)
}

/// Adds what each arc carries at its end, and takes it from its start.
fn carry(problem: &Problem, flow: &[u64], rest: &mut [i128])
    requires few { length problem.now.arcs.list < 2 ^ 32 }
    requires ends { EndsInRange (length rest.old) problem.now.arcs.list }
    requires one_each { length flow.now ≡ length problem.now.arcs.list }
    requires carried { (j : ℕ) → flow_of flow.now j < 2 ^ 63 }
    requires zero { (v : ℕ) → numbers_of rest.old v ≡ pos 0 }
    ensures rest { (v : ℕ) → numbers_of rest.new v
        ≡ (taken problem.now (flow_of flow.now) v -ℤ sent problem.now (flow_of flow.now) v) }
    ensures small { (v : ℕ) → unsigned_abs (numbers_of rest.new v) ≤ 2 ^ 96 }
{
    let list = problem.arcs.list.as_slice();
    for j in 0..list.len() {
        let arc = arc_number(list, j);
        add(rest, arc.to as usize, flow[j]);
        take(rest, arc.from as usize, flow[j]);
    }
}

/// Adds the weight of each term at its start, and takes it from its end.
fn weigh(problem: &Problem, rest: &mut [i128])
    requires few { length problem.now.terms ≤ 2 ^ 20 }
    requires ends { TermsInRange (length rest.old) problem.now.terms }
    requires small { (v : ℕ) → unsigned_abs (numbers_of rest.old v) ≤ 2 ^ 96 }
    ensures { (v : ℕ) → numbers_of rest.new v ≡ (numbers_of rest.old v +ℤ surplus problem.now v) }
{
    let terms = problem.terms.as_slice();
    for t in 0..terms.len() {
        let term = term_number(terms, t);
        add(rest, term.from as usize, term.weight as u64);
        take(rest, term.to as usize, term.weight as u64);
    }
}

/// Adds an amount at a node.
fn add(rest: &mut [i128], node: usize, amount: u64)
    requires node { node < length rest.old }
    requires room { unsigned_abs (numbers_of rest.old node) ≤ 2 ^ 120 }
    ensures { (v : ℕ) → numbers_of rest.new v ≡ (numbers_of rest.old v +ℤ at_node node amount v) }
{
    rest[node] += amount as i128;
}

/// Takes an amount from a node.
fn take(rest: &mut [i128], node: usize, amount: u64)
    requires node { node < length rest.old }
    requires room { unsigned_abs (numbers_of rest.old node) ≤ 2 ^ 121 }
    ensures { (v : ℕ) → numbers_of rest.new v ≡ (numbers_of rest.old v -ℤ at_node node amount v) }
{
    rest[node] -= amount as i128;
}

/// The place of the first number that is not 0.
fn first_other(rest: &[i128]) -> Option<u32>
    requires few { length rest.now < 2 ^ 32 }
    ensures none { IfNone result ((v : ℕ) → numbers_of rest.now v ≡ pos 0) }
    ensures some { IfSome result (IsFirstOther (numbers_of rest.now) (length rest.now)) }
{
    for v in 0..rest.len() {
        if rest[v] != 0 {
            return Some(v as u32);
        }
    }
    None
}
