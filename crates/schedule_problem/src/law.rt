// The laws that tie flows and costs.
ghost use Rattle.cycle_find.specs.Constraints.{EndsInRange};
ghost use Rattle.schedule_problem.specs.Flow.{TermsInRange, FlowsBoundCosts};
ghost use Rattle.schedule_problem.specs.Optimum.{BestAreCheapest};

use crate::problem::Problem;

/// Weak duality: no flow is worth more than any legal times cost. The function does nothing: its
/// contract is the law.
pub fn flows_bound_costs(problem: &Problem)
    requires arcs { EndsInRange problem.now.arcs.nodes problem.now.arcs.list }
    requires terms { TermsInRange problem.now.arcs.nodes problem.now.terms }
    ensures { FlowsBoundCosts problem.now }
{
    let _nothing = problem;
}

/// Legal times that cost what some flow is worth cost least. The function does nothing: its contract
/// is the law.
pub fn best_are_cheapest(problem: &Problem)
    requires arcs { EndsInRange problem.now.arcs.nodes problem.now.arcs.list }
    requires terms { TermsInRange problem.now.arcs.nodes problem.now.terms }
    ensures { BestAreCheapest problem.now }
{
    let _nothing = problem;
}
