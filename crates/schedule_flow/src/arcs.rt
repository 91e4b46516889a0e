// The arcs of a problem.
ghost use Rattle.std.specs.Prelude.{◌≡◌, ◌<◌, length};
ghost use Rattle.cycle_find.specs.Constraints.{arc_at};

use cycle_find::Arc;
use schedule_problem::Problem;

/// The number of arcs.
pub fn arc_count(problem: &Problem) -> usize
    ensures { result ≡ length problem.now.arcs.list }
{
    problem.arcs.list.len()
}

/// Arc number `j`, from 0.
pub fn arc_of(problem: &Problem, j: usize) -> Arc
    requires { j < length problem.now.arcs.list }
    ensures { result ≡ arc_at problem.now.arcs.list j }
{
    problem.arcs.list.as_slice()[j]
}
