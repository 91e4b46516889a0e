// The best times, and the flow that shows that none cost less.
ghost use Rattle.std.specs.Prelude.{◌≡◌, ℕ, ◌+◌, ◌*◌, ◌<◌, ◌≤◌, ◌^◌, pos, ◌≤ℤ◌, length, OnOk, IfOk, IfErr};
ghost use Rattle.cycle_find.specs.Constraints.{numbers_of, NeedsWithin, Solves};
ghost use Rattle.schedule_problem.specs.Flow.{flow_of, excess};
ghost use Rattle.schedule_problem.specs.Optimum.{IsProblem, IsBest, IsCheapest, IsEarliest};
ghost use Rattle.schedule_flow.specs.Network.{weights};
ghost use Rattle.schedule_flow.specs.Balance.{IsOnWay};
ghost use Rattle.schedule_flow.specs.Start.{IsStart};
ghost use Rattle.schedule_flow.specs.Best.{HasNoTimes};

use crate::adjacency::adjacency_of;
use crate::balance::send_all;
use crate::certified::certified;
use crate::earliest::earliest;
use crate::follow::take_up;
use crate::guide::Guide;
use crate::network::Residual;
use crate::simplex::{Guess, guessed};
use crate::start::first_times;
use crate::tree::Tree;
use cycle_find::{Cycle, SolveError, solve};
use mx_base::{List, NoMemory};
use schedule_problem::{Answer, Problem};
use std::alloc::{AllocError, Global};

/// Why there are no times.
#[derive(Drop)]
pub enum BestError {
    /// A simple closed walk whose needs sum above 0, so that no times are legal.
    Cycle(Cycle),
    /// No memory was left.
    NoMemory,
}

impl From<NoMemory> for BestError {
    ghost from_gives = { λ _ e. e ≡ NoMemory };

    ghost use Rattle.schedule_flow.specs.declared.solver.BestError.TheVariants.{NoMemory};

    fn from(_: NoMemory) -> Self {
        BestError::NoMemory
    }
}

impl From<AllocError> for BestError {
    ghost from_gives = { λ _ e. e ≡ NoMemory };

    ghost use Rattle.schedule_flow.specs.declared.solver.BestError.TheVariants.{NoMemory};

    fn from(_: AllocError) -> Self {
        BestError::NoMemory
    }
}

/// The best times: legal ones from 0 that cost least, and of those the ones that are nowhere later than
/// others, so none above the number of nodes times the greatest size of a need; and a flow that is
/// worth what they cost. `Cycle` comes exactly where no times are legal.
pub fn best(alloc: Global, problem: &Problem) -> Result<Answer, BestError>
    requires { IsProblem problem.now }
    ensures best { IfOk result (IsBest problem.now) }
    ensures small { IfOk result (λ a. (j : ℕ) → flow_of a.flow j < 2 ^ 63) }
    ensures cheapest { IfOk result (λ a. IsCheapest problem.now (numbers_of a.times)) }
    ensures earliest { IfOk result (λ a. IsEarliest problem.now (numbers_of a.times)) }
    ensures within { IfOk result (λ a. (size : ℕ) → NeedsWithin size problem.now.arcs.list
        → (v : ℕ) → numbers_of a.times v ≤ℤ pos (problem.now.arcs.nodes * size)) }
    ensures cycle { IfErr result (HasNoTimes problem.now) }
{
    let guess = guess_of(alloc, problem)?;
    if let Some(answer) = certified(alloc, problem, guess)? {
        return Ok(answer);
    }
    let (answer, _network) = best_counted(alloc, problem)?;
    Ok(answer)
}

/// The answer of `best`, and the network in which its flow was sent, in at most as many paths as the
/// weights of the terms sum to.
pub fn best_counted(alloc: Global, problem: &Problem) -> Result<(Answer, Residual), BestError>
    requires { IsProblem problem.now }
    ensures best { IfOk result (λ r. IsBest problem.now r.0) }
    ensures small { IfOk result (λ r. (j : ℕ) → flow_of r.0.flow j < 2 ^ 63) }
    ensures cheapest { IfOk result (λ r. IsCheapest problem.now (numbers_of r.0.times)) }
    ensures earliest { IfOk result (λ r. IsEarliest problem.now (numbers_of r.0.times)) }
    ensures within { IfOk result (λ r. (size : ℕ) → NeedsWithin size problem.now.arcs.list
        → (v : ℕ) → numbers_of r.0.times v ≤ℤ pos (problem.now.arcs.nodes * size)) }
    ensures network { IfOk result (λ r. r.1.problem ≡ problem.now) }
    ensures flow { IfOk result (λ r. r.1.flow ≡ r.0.flow) }
    ensures counted { IfOk result (λ r. pos r.1.sends ≤ℤ weights problem.now) }
    ensures cycle { IfErr result (HasNoTimes problem.now) }
{
    let legal = legal_times(alloc, problem)?;
    let mut net = Residual::new(alloc, problem, &legal)?;
    let answer = answer_by(alloc, problem, &mut net, legal)?;
    Ok((answer, net))
}

/// Times and a flow that may be the best. Nothing rests on them.
fn guess_of(alloc: Global, problem: &Problem) -> Result<Guess, BestError>
    requires { IsProblem problem.now }
    ensures cycle { IfErr result (HasNoTimes problem.now) }
{
    let legal = legal_times(alloc, problem)?;
    let net = Residual::new(alloc, problem, &legal)?;
    Ok(guessed(alloc, problem, &legal, net.rest())?)
}

/// The best times and the flow that shows it, sent in this network from legal times on. Apart from
/// `best_counted`, which owns the network, so that no error here has one to drop.
fn answer_by(
    alloc: Global,
    problem: &Problem,
    net: &mut Residual,
    legal: Vec<i64>,
) -> Result<Answer, BestError>
    requires problem { IsProblem problem.now }
    requires light { weights problem.now ≤ℤ pos (2 ^ 52) }
    requires network { net.old.problem ≡ problem.now }
    requires empty { (j : ℕ) → flow_of net.old.flow j ≡ 0 }
    requires fresh { net.old.sends ≡ 0 }
    requires legal { IsStart problem.now legal.items }
    ensures best { IfOk result (IsBest problem.now) }
    ensures small { IfOk result (λ a. (j : ℕ) → flow_of a.flow j < 2 ^ 63) }
    ensures cheapest { IfOk result (λ a. IsCheapest problem.now (numbers_of a.times)) }
    ensures earliest { IfOk result (λ a. IsEarliest problem.now (numbers_of a.times)) }
    ensures within { IfOk result (λ a. (size : ℕ) → NeedsWithin size problem.now.arcs.list
        → (v : ℕ) → numbers_of a.times v ≤ℤ pos (problem.now.arcs.nodes * size)) }
    ensures network { OnOk result (net.new.problem ≡ problem.now) }
    ensures flow { IfOk result (λ a. net.new.flow ≡ a.flow) }
    ensures counted { OnOk result (pos net.new.sends ≤ℤ weights problem.now) }
    ensures cycle { IfErr result (HasNoTimes problem.now) }
{
    let guess = guessed(alloc, problem, &legal, net.rest())?;
    let first = first_times(problem, guess.times, legal);
    let x = balance(alloc, problem, net, &first, &guess.flow)?;
    answer_of(alloc, problem, net, &x)
}

/// The answer that a network shows which has sent all surplus, with the numbers that are tight then.
fn answer_of(
    alloc: Global,
    problem: &Problem,
    net: &Residual,
    x: &[i128],
) -> Result<Answer, BestError>
    requires problem { IsProblem problem.now }
    requires on_way { IsOnWay problem.now (numbers_of x.now) net.now }
    requires balanced { (v : ℕ) → v < problem.now.arcs.nodes
        → excess problem.now (flow_of net.now.flow) v ≤ℤ pos 0 }
    ensures best { IfOk result (IsBest problem.now) }
    ensures small { IfOk result (λ a. (j : ℕ) → flow_of a.flow j < 2 ^ 63) }
    ensures cheapest { IfOk result (λ a. IsCheapest problem.now (numbers_of a.times)) }
    ensures earliest { IfOk result (λ a. IsEarliest problem.now (numbers_of a.times)) }
    ensures within { IfOk result (λ a. (size : ℕ) → NeedsWithin size problem.now.arcs.list
        → (v : ℕ) → numbers_of a.times v ≤ℤ pos (problem.now.arcs.nodes * size)) }
    ensures flow { IfOk result (λ a. net.now.flow ≡ a.flow) }
    ensures cycle { IfErr result (HasNoTimes problem.now) }
{
    let times = earliest(alloc, problem, net.flow(), x)?;
    let flow = Vec::from_slice(alloc, net.flow())?;
    Ok(Answer {
        times: List::from_vec(times),
        flow: List::from_vec(flow),
    })
}

/// The least legal times from 0.
fn legal_times(alloc: Global, problem: &Problem) -> Result<Vec<i64>, BestError>
    requires { IsProblem problem.now }
    ensures one_each { IfOk result (λ x. length x.items ≡ problem.now.arcs.nodes) }
    ensures legal { IfOk result (λ x. Solves (numbers_of x.items) problem.now.arcs.list) }
    ensures low { IfOk result (λ x. (v : ℕ) → pos 0 ≤ℤ numbers_of x.items v) }
    ensures high { IfOk result (λ x. (v : ℕ) → numbers_of x.items v ≤ℤ pos (2 ^ 60)) }
    ensures cycle { IfErr result (HasNoTimes problem.now) }
{
    match solve(alloc, &problem.arcs) {
        Ok(times) => Ok(times),
        Err(SolveError::NoMemory) => Err(BestError::NoMemory),
        Err(SolveError::Cycle(cycle)) => Err(BestError::Cycle(cycle)),
    }
}

/// Sends all surplus from legal times on, first as a guessed flow says. It answers the numbers that are
/// then tight.
fn balance(
    alloc: Global,
    problem: &Problem,
    net: &mut Residual,
    times: &[i64],
    guide_flow: &[u64],
) -> Result<Vec<i128>, NoMemory>
    requires problem { IsProblem problem.now }
    requires light { weights problem.now ≤ℤ pos (2 ^ 52) }
    requires network { net.old.problem ≡ problem.now }
    requires empty { (j : ℕ) → flow_of net.old.flow j ≡ 0 }
    requires fresh { net.old.sends ≡ 0 }
    requires one_each { length times.now ≡ problem.now.arcs.nodes }
    requires legal { Solves (numbers_of times.now) problem.now.arcs.list }
    requires low { (v : ℕ) → pos 0 ≤ℤ numbers_of times.now v }
    requires high { (v : ℕ) → numbers_of times.now v ≤ℤ pos (2 ^ 60) }
    ensures one_each { IfOk result (λ x. length x.items ≡ problem.now.arcs.nodes) }
    ensures on_way { IfOk result (λ x. IsOnWay problem.now (numbers_of x.items) net.new) }
    ensures balanced { OnOk result ((v : ℕ) → v < problem.now.arcs.nodes → excess problem.now (flow_of net.new.flow) v ≤ℤ pos 0) }
{
    let links = adjacency_of(alloc, &problem.arcs)?;
    let nodes = problem.arcs.nodes as usize;
    let mut tree = Tree::new(alloc, nodes)?;
    let mut x = wide(alloc, times)?;
    let mut guide = Guide::new(alloc, problem, guide_flow, net.rest())?;
    take_up(alloc, problem, net, x.as_slice(), &mut tree, &mut guide)?;
    send_all(alloc, problem, &links, net, x.as_mut_slice(), &mut tree)?;
    Ok(x)
}

/// The same numbers in more bits.
pub fn wide(alloc: Global, times: &[i64]) -> Result<Vec<i128>, AllocError>
    ensures len { IfOk result (λ y. length y.items ≡ length times.now) }
    ensures same { IfOk result (λ y. (v : ℕ) → numbers_of y.items v ≡ numbers_of times.now v) }
{
    let mut y = Vec::new(alloc);
    for v in times {
        y.push(*v as i128)?;
    }
    Ok(y)
}
