// The law that chains are determined.
ghost use Rattle.cycle_find.specs.Constraints.{numbers_of};
ghost use Rattle.fifo_sharing.specs.Chains.{HaveOneList};

use schedule_problem::Problem;

/// A problem has one list of chains at given times. The function does nothing: its contract is the law.
pub fn chains_are_one(problem: &Problem, times: &[i64])
    ensures { HaveOneList problem.now (numbers_of times.now) }
{
    let _nothing = problem;
    let _times = times;
}
