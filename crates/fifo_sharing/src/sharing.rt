// Which words are kept for consumers that are later than their producer.
ghost use Rattle.std.specs.Prelude.{◌≡◌, ℕ, ◌≤◌, ◌^◌, length, unsigned_abs, IfOk};
ghost use Rattle.cycle_find.specs.Constraints.{numbers_of, Solves, IsSolvable};
ghost use Rattle.fifo_sharing.specs.Chains.{AreChains};

use crate::chain::{Chain, chain_for};
use crate::delays::delays_of;
use mx_base::{List, NoMemory};
use schedule_problem::Problem;
use std::alloc::Global;

/// The chains that keep words for the consumers: one for each producer of whose edges one has a delay
/// above 0, by rising producers. The only error is want of memory.
///
/// Edge number `j` of the problem is its arc number `2 * j`, from the producer to the consumer, and its
/// delay is the time from one to the other less the arc's need, in ticks.
pub fn share(alloc: Global, problem: &Problem, times: &[i64]) -> Result<List<Chain>, NoMemory>
    requires arcs { IsSolvable problem.now.arcs }
    requires one_each { length times.now ≡ problem.now.arcs.nodes }
    requires legal { Solves (numbers_of times.now) problem.now.arcs.list }
    requires within { (v : ℕ) → unsigned_abs (numbers_of times.now v) ≤ 2 ^ 60 }
    ensures { IfOk result (AreChains problem.now (numbers_of times.now)) }
{
    let mut chains = List::new(alloc);
    for (producer, delays) in delays_of(alloc, problem, times)?.into_iter().enumerate() {
        if let Some(chain) = chain_for(producer as u32, delays) {
            chains.push(chain)?;
        }
    }
    Ok(chains)
}
