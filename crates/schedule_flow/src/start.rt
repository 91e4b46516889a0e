// The times from which flow is sent.
ghost use Rattle.std.specs.Prelude.{◌≡◌, ℕ, ◌^◌, pos, ◌≤ℤ◌, IsTrue, length};
ghost use Rattle.cycle_find.specs.Constraints.{numbers_of, Solves};
ghost use Rattle.schedule_problem.specs.Optimum.{IsProblem};
ghost use Rattle.schedule_flow.specs.Start.{IsStart};

use cycle_find::solve_ok;
use schedule_problem::Problem;

/// Guessed times where they are legal and neither below 0 nor too large, else the others, which are so.
pub fn first_times(problem: &Problem, guessed: Vec<i64>, legal: Vec<i64>) -> Vec<i64>
    requires problem { IsProblem problem.now }
    requires legal { IsStart problem.now legal.items }
    ensures { IsStart problem.now result.items }
{
    if is_start(problem, &guessed) {
        guessed
    } else {
        legal
    }
}

/// Whether times are legal and neither below 0 nor too large.
pub fn is_start(problem: &Problem, times: &[i64]) -> bool
    requires { IsProblem problem.now }
    ensures { IsTrue result → IsStart problem.now times.now }
{
    if times.len() != problem.arcs.nodes as usize || !are_small(times) {
        return false;
    }
    solve_ok(&problem.arcs, times).is_none()
}

fn are_small(times: &[i64]) -> bool
    ensures low { IsTrue result → (v : ℕ) → pos 0 ≤ℤ numbers_of times.now v }
    ensures high { IsTrue result → (v : ℕ) → numbers_of times.now v ≤ℤ pos (2 ^ 60) }
{
    for v in 0..times.len() {
        if times[v] < 0 || times[v] > 1 << 60 {
            return false;
        }
    }
    true
}
