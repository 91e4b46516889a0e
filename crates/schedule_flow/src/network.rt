// The residual network: only `new` makes one, and only `augment` changes it.
ghost use Rattle.std.specs.Prelude.{
  ◌≡◌,
  ℕ,
  ◌+◌,
  ◌-◌,
  ◌*◌,
  ◌/◌,
  ◌%◌,
  ◌<◌,
  ◌≤◌,
  ◌^◌,
  ◌==◌,
  if◌then◌else◌,
  pos,
  ◌+ℤ◌,
  ◌-ℤ◌,
  ◌≤ℤ◌,
  length,
  slice_index,
  slice_set,
  unsigned_abs,
  IfOk,
};
ghost use Rattle.cycle_find.specs.Constraints.{numbers_of, arc_at, EndsInRange, Solves};
ghost use Rattle.schedule_problem.specs.Flow.{flow_of, excess, surplus, TermsInRange};
ghost use Rattle.schedule_problem.specs.Optimum.{IsProblem};
ghost use Rattle.schedule_flow.specs.Network.{Network, IsPath, IsSent, HasRoom, tail_of, head_of, at_node, weights};

use cycle_find::{Arc, Arcs, arc_number};
use mx_base::{List, NoMemory};
use schedule_problem::{Problem, term_number};
use std::alloc::{AllocError, Global};
use std::marker::Model;

/// A flow on the way to balance, and what each node still has to send.
#[derive(Drop)]
pub struct Residual {
    problem: Problem,
    flow: Vec<u64>,
    rest: Vec<i64>,
    sends: u64,
    moved: u64,
}

impl Model for Residual {
    ghost use Rattle.schedule_flow.specs.Network.{Network, IsKept};

    ghost Value = { Network };

    ghost view = { λ r. record { problem = r.problem; flow = r.flow.items; sends = r.sends } };

    ghost invariant = { λ r. IsKept r.problem r.flow.items r.rest.items r.sends r.moved };
}

impl Residual {
    /// What each arc carries.
    pub fn flow(&self) -> &[u64]
        ensures flow { result.now ≡ self.now.flow }
        ensures len { length result.now ≡ length self.now.problem.arcs.list }
        ensures small { (j : ℕ) → flow_of result.now j < 2 ^ 63 }
    {
        self.flow.as_slice()
    }

    /// How often `augment` was called.
    pub fn sends(&self) -> u64
        ensures { result ≡ self.now.sends }
    {
        self.sends
    }

    /// What each node still has to send, or below 0 to take.
    pub fn rest(&self) -> &[i64]
        ensures len { length result.now ≡ self.now.problem.arcs.nodes }
        ensures rest { (v : ℕ) → numbers_of result.now v ≡ excess self.now.problem (flow_of self.now.flow) v }
    {
        self.rest.as_slice()
    }
}

/// Sends an amount along a path.
pub fn augment(net: &mut Residual, path: &[u32], amount: u64)
    requires { IsPath net.old.problem (flow_of net.old.flow) path.now amount }
    ensures problem { net.new.problem ≡ net.old.problem }
    ensures sends { net.new.sends ≡ net.old.sends + 1 }
    ensures sent { IsSent net.old.problem (flow_of net.old.flow) (flow_of net.new.flow) path.now amount }
    ensures counted { pos net.new.sends ≤ℤ weights net.new.problem }
{
    let list = net.problem.arcs.list.as_slice();
    let first = tail(list, path[0]);
    let last = head(list, path[path.len() - 1]);
    send(&net.problem, net.flow.as_mut_slice(), path, amount);
    settle(net.rest.as_mut_slice(), first, last, amount);
    net.moved += amount;
    net.sends += 1;
}

/// Sends an amount along a path.
fn send(problem: &Problem, flow: &mut [u64], path: &[u32], amount: u64)
    requires path { IsPath problem.now (flow_of flow.old) path.now amount }
    requires len { length flow.old ≡ length problem.now.arcs.list }
    requires small { (j : ℕ) → slice_index flow.old j + amount < 2 ^ 63 }
    ensures sent { IsSent problem.now (flow_of flow.old) (flow_of flow.new) path.now amount }
    ensures most { (j : ℕ) → slice_index flow.new j ≤ slice_index flow.old j + amount }
{
    let list = problem.arcs.list.as_slice();
    for k in 0..path.len() {
        push(list, flow, path[k], amount);
    }
}

/// Takes the amount from what the first node has to send, and from what the last one has to take.
fn settle(rest: &mut [i64], first: usize, last: usize, amount: u64)
    requires first { first < length rest.old }
    requires last { last < length rest.old }
    requires some { 0 < amount }
    requires surplus { pos amount ≤ℤ numbers_of rest.old first }
    requires want { (numbers_of rest.old last +ℤ pos amount) ≤ℤ pos 0 }
    ensures { (v : ℕ) → numbers_of rest.new v ≡ ((numbers_of rest.old v -ℤ at_node first amount v) +ℤ at_node last amount v) }
{
    let less = rest[first] - amount as i64;
    let more = rest[last] + amount as i64;
    rest[first] = less;
    rest[last] = more;
}

fn push(list: &[Arc], flow: &mut [u64], number: u32, amount: u64)
    requires room { HasRoom list.now (flow_of flow.old) amount number }
    requires len { length flow.old ≡ length list.now }
    requires small { slice_index flow.old (number / 2) + amount < 2 ^ 64 }
    ensures { flow.new ≡ slice_set flow.old (number / 2) (if (number % 2 == 0)
        then (slice_index flow.old (number / 2) + amount)
        else (slice_index flow.old (number / 2) - amount)) }
{
    let j = (number / 2) as usize;
    if number % 2 == 0 {
        flow[j] += amount;
    } else {
        flow[j] -= amount;
    }
}

/// Where a residual arc starts.
pub fn tail(list: &[Arc], number: u32) -> usize
    requires { number / 2 < length list.now }
    ensures { result ≡ tail_of list.now number }
{
    let arc = arc_number(list, (number / 2) as usize);
    if number % 2 == 0 {
        arc.from as usize
    } else {
        arc.to as usize
    }
}

/// Where a residual arc ends.
pub fn head(list: &[Arc], number: u32) -> usize
    requires { number / 2 < length list.now }
    ensures { result ≡ head_of list.now number }
{
    let arc = arc_number(list, (number / 2) as usize);
    if number % 2 == 0 {
        arc.to as usize
    } else {
        arc.from as usize
    }
}

impl Residual {
    /// The network of a problem, with nothing sent yet.
    pub fn new(alloc: Global, problem: &Problem, times: &[i64]) -> Result<Residual, NoMemory>
        requires problem { IsProblem problem.now }
        requires one_each { length times.now ≡ problem.now.arcs.nodes }
        requires legal { Solves (numbers_of times.now) problem.now.arcs.list }
        ensures problem { IfOk result (λ net. net.problem ≡ problem.now) }
        ensures flow { IfOk result (λ net. (j : ℕ) → flow_of net.flow j ≡ 0) }
        ensures sends { IfOk result (λ net. net.sends ≡ 0) }
        ensures light { IfOk result (λ _. weights problem.now ≤ℤ pos (2 ^ 52)) }
    {
        let _legal = times;
        let flow = vec![in alloc; 0u64; problem.arcs.list.len()]?;
        let mut rest = vec![in alloc; 0i64; problem.arcs.nodes as usize]?;
        surpluses(problem, rest.as_mut_slice());
        Ok(Residual {
            problem: copy(alloc, problem)?,
            flow,
            rest,
            sends: 0,
            moved: 0,
        })
    }
}

/// Gives each node its surplus.
fn surpluses(problem: &Problem, rest: &mut [i64])
    requires count { length problem.now.terms ≤ 2 ^ 20 }
    requires ends { TermsInRange (length rest.old) problem.now.terms }
    requires zero { (v : ℕ) → numbers_of rest.old v ≡ pos 0 }
    ensures rest { (v : ℕ) → numbers_of rest.new v ≡ surplus problem.now v }
    ensures light { weights problem.now ≤ℤ pos (2 ^ 52) }
{
    let terms = problem.terms.as_slice();
    for t in 0..terms.len() {
        let term = term_number(terms, t);
        add(rest, term.from as usize, term.weight);
        subtract(rest, term.to as usize, term.weight);
    }
}

fn add(rest: &mut [i64], node: usize, weight: u32)
    requires node { node < length rest.old }
    requires room { unsigned_abs (numbers_of rest.old node) ≤ 2 ^ 60 }
    ensures { (v : ℕ) → numbers_of rest.new v ≡ (numbers_of rest.old v +ℤ at_node node weight v) }
{
    rest[node] += weight as i64;
}

fn subtract(rest: &mut [i64], node: usize, weight: u32)
    requires node { node < length rest.old }
    requires room { unsigned_abs (numbers_of rest.old node) ≤ 2 ^ 61 }
    ensures { (v : ℕ) → numbers_of rest.new v ≡ (numbers_of rest.old v -ℤ at_node node weight v) }
{
    rest[node] -= weight as i64;
}

fn copy(alloc: Global, problem: &Problem) -> Result<Problem, AllocError>
    ensures { IfOk result (λ p. p ≡ problem.now) }
{
    let list = Vec::from_slice(alloc, problem.arcs.list.as_slice())?;
    let terms = Vec::from_slice(alloc, problem.terms.as_slice())?;
    Ok(Problem {
        arcs: Arcs {
            nodes: problem.arcs.nodes,
            list: List::from_vec(list),
        },
        terms: List::from_vec(terms),
        base: problem.base,
    })
}
