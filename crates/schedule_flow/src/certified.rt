// The answer by a guess that is right.
ghost use Rattle.std.specs.Prelude.{◌≡◌, ℕ, ◌*◌, ◌<◌, ◌≤◌, ◌^◌, pos, ◌≤ℤ◌, length, unsigned_abs, IsTrue, IfSome, IfOk};
ghost use Rattle.cycle_find.specs.Constraints.{numbers_of, EndsInRange, NeedsWithin};
ghost use Rattle.schedule_problem.specs.Flow.{flow_of};
ghost use Rattle.schedule_problem.specs.Optimum.{IsProblem, IsBest, IsCheapest, IsEarliest};
ghost use Rattle.schedule_flow.specs.Network.{IsTight};

use crate::arcs::arc_count;
use crate::earliest::earliest;
use crate::search::slack;
use crate::simplex::Guess;
use crate::solver::wide;
use crate::start::is_start;
use dual_check::first_unbalanced;
use mx_base::{List, NoMemory};
use schedule_problem::{Answer, Problem};
use std::alloc::Global;

/// Whether no arc carries 2^63 or more.
fn are_small(flow: &[u64]) -> bool
    ensures { IsTrue result → (j : ℕ) → flow_of flow.now j < 2 ^ 63 }
{
    for j in 0..flow.len() {
        if flow[j] >= 1 << 63 {
            return false;
        }
    }
    true
}

/// Whether each arc that carries something is met with equality.
fn is_tight(problem: &Problem, x: &[i128], flow: &[u64]) -> bool
    requires ends { EndsInRange (length x.now) problem.now.arcs.list }
    requires flow { length flow.now ≡ length problem.now.arcs.list }
    requires small { (v : ℕ) → unsigned_abs (numbers_of x.now v) ≤ 2 ^ 116 }
    ensures { IsTrue result → IsTight problem.now (numbers_of x.now) (flow_of flow.now) }
{
    for j in 0..arc_count(problem) {
        if flow[j] > 0 && slack(problem, x, j) != 0 {
            return false;
        }
    }
    true
}

/// The answer by a guess that is right: its times are legal, each node sends its surplus more than it
/// takes, and an arc carries something only where it is met with equality. `None` says nothing.
pub fn certified(alloc: Global, problem: &Problem, guess: Guess) -> Result<Option<Answer>, NoMemory>
    requires { IsProblem problem.now }
    ensures best { IfOk result (λ r. IfSome r (IsBest problem.now)) }
    ensures small { IfOk result (λ r. IfSome r (λ a. (j : ℕ) → flow_of a.flow j < 2 ^ 63)) }
    ensures cheapest { IfOk result (λ r. IfSome r (λ a. IsCheapest problem.now (numbers_of a.times))) }
    ensures earliest { IfOk result (λ r. IfSome r (λ a. IsEarliest problem.now (numbers_of a.times))) }
    ensures within { IfOk result (λ r. IfSome r (λ a. (size : ℕ)
        → NeedsWithin size problem.now.arcs.list
        → (v : ℕ) → numbers_of a.times v ≤ℤ pos (problem.now.arcs.nodes * size))) }
{
    if guess.flow.len() != arc_count(problem) || !are_small(&guess.flow) {
        return Ok(None);
    }
    if !is_start(problem, &guess.times) {
        return Ok(None);
    }
    let x = wide(alloc, &guess.times)?;
    if !is_tight(problem, &x, &guess.flow) {
        return Ok(None);
    }
    let mut scratch = vec![in alloc; 0i128; problem.arcs.nodes as usize]?;
    if first_unbalanced(problem, &guess.flow, scratch.as_mut_slice()).is_some() {
        return Ok(None);
    }
    let times = earliest(alloc, problem, &guess.flow, &x)?;
    Ok(Some(Answer {
        times: List::from_vec(times),
        flow: List::from_vec(guess.flow),
    }))
}
