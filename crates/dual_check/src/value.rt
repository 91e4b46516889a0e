// What a flow is worth.
ghost use Rattle.std.specs.Prelude.{◌≡◌, ℕ, ◌<◌, ◌≤◌, ◌*◌, ◌-◌, ◌^◌, pos, ◌*ℤ◌, length, unsigned_abs};
ghost use Rattle.cycle_find.specs.Constraints.{need_of, NeedsWithin};
ghost use Rattle.schedule_problem.specs.Flow.{flow_of, value_of};

use cycle_find::{Arc, arc_number};
use schedule_problem::Problem;

/// What a flow is worth: the sum, over the arcs, of what the arc carries times its need, less `base`.
pub fn value(problem: &Problem, flow: &[u64]) -> i128
    requires one_each { length flow.now ≡ length problem.now.arcs.list }
    requires carried { (j : ℕ) → flow_of flow.now j < 2 ^ 63 }
    requires small { (size : ℕ) × NeedsWithin size problem.now.arcs.list
        × (length problem.now.arcs.list * size ≤ 2 ^ 64) }
    ensures { result ≡ value_of problem.now (flow_of flow.now) }
{
    let list = problem.arcs.list.as_slice();
    let mut sum: i128 = 0;
    for j in 0..list.len() {
        sum += worth(list, j, flow[j]);
    }
    sum - problem.base as i128
}

/// What one arc adds that carries an amount.
fn worth(list: &[Arc], j: usize, amount: u64) -> i128
    requires arc { j < length list.now }
    requires amount { amount < 2 ^ 63 }
    ensures worth { result ≡ pos amount *ℤ need_of list.now j }
    ensures small { unsigned_abs result ≤ (2 ^ 63 - 1) * unsigned_abs (need_of list.now j) }
{
    let arc = arc_number(list, j);
    amount as i128 * arc.need as i128
}
