// The delays of the edges of each producer.
ghost use Rattle.std.specs.Prelude.{◌≡◌, ℕ, ◌*◌, ◌<◌, ◌≤◌, ◌^◌, pos, [], length, unsigned_abs, IfOk, All};
ghost use Rattle.cycle_find.specs.Constraints.{numbers_of, Solves, IsSolvable};
ghost use Rattle.fifo_sharing.specs.Chains.{delay_of};
ghost use Rattle.fifo_sharing.specs.Delays.{AreDelays};

use cycle_find::arc_number;
use mx_base::{List, NoMemory};
use schedule_problem::Problem;
use std::alloc::Global;

/// The delays above 0 of the edges of each node, in the order of edges.
pub fn delays_of(
    alloc: Global,
    problem: &Problem,
    times: &[i64],
) -> Result<Vec<List<u64>>, NoMemory>
    requires arcs { IsSolvable problem.now.arcs }
    requires one_each { length times.now ≡ problem.now.arcs.nodes }
    requires legal { Solves (numbers_of times.now) problem.now.arcs.list }
    requires within { (v : ℕ) → unsigned_abs (numbers_of times.now v) ≤ 2 ^ 60 }
    ensures one_each { IfOk result (λ delays. length delays.items ≡ problem.now.arcs.nodes) }
    ensures delays { IfOk result (λ delays. AreDelays problem.now (numbers_of times.now) delays.items) }
{
    let list = problem.arcs.list.as_slice();
    let mut delays = empty_lists(alloc, problem.arcs.nodes)?;
    for edge in 0..list.len().div_ceil(2) {
        let producer = arc_number(list, 2 * edge).from as usize;
        let delay = delay_of(problem, times, edge);
        if delay > 0 {
            delays[producer].push(delay)?;
        }
    }
    Ok(delays)
}

/// So many empty lists.
fn empty_lists(alloc: Global, count: u32) -> Result<Vec<List<u64>>, NoMemory>
    ensures len { IfOk result (λ lists. length lists.items ≡ count) }
    ensures empty { IfOk result (λ lists. All (λ list. list ≡ []) lists.items) }
{
    let mut lists = Vec::new(alloc);
    for _ in 0..count {
        lists.push(List::new(alloc))?;
    }
    Ok(lists)
}

/// The delay of an edge, in ticks.
fn delay_of(problem: &Problem, times: &[i64], edge: usize) -> u64
    requires arcs { IsSolvable problem.now.arcs }
    requires one_each { length times.now ≡ problem.now.arcs.nodes }
    requires legal { Solves (numbers_of times.now) problem.now.arcs.list }
    requires within { (v : ℕ) → unsigned_abs (numbers_of times.now v) ≤ 2 ^ 60 }
    requires edge { 2 * edge < length problem.now.arcs.list }
    ensures { delay_of problem.now (numbers_of times.now) edge ≡ pos result }
{
    let arc = arc_number(problem.arcs.list.as_slice(), 2 * edge);
    (times[arc.to as usize] - times[arc.from as usize] - arc.need) as u64
}
