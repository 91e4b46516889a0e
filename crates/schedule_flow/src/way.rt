// The way from a node with a surplus to a node in want.
ghost use Rattle.std.specs.Prelude.{◌≡◌, ℕ, ◌+◌, ◌/◌, ◌%◌, ◌<◌, ◌≤◌, ◌^◌, pos, ◌+ℤ◌, ◌≤ℤ◌, length, slice_index, reverse, IfOk};
ghost use Rattle.cycle_find.specs.Constraints.{numbers_of, EndsInRange};
ghost use Rattle.schedule_problem.specs.Flow.{flow_of, excess};
ghost use Rattle.schedule_flow.specs.Network.{IsPath};
ghost use Rattle.schedule_flow.specs.Reach.{IsReached, IsWanting, IsFree};

use crate::network::tail;
use crate::tree::Tree;
use schedule_problem::Problem;
use std::alloc::{AllocError, Global};

/// A path of residual arcs, and what can be sent along it.
#[derive(Drop)]
pub struct Way {
    pub path: Vec<u32>,
    pub amount: u64,
}

/// The way by which a node in want was reached.
pub fn way_to(
    alloc: Global,
    problem: &Problem,
    _x: &[i128],
    flow: &[u64],
    rest: &[i64],
    tree: &Tree,
    want: usize,
) -> Result<Way, AllocError>
    requires ends { EndsInRange problem.now.arcs.nodes problem.now.arcs.list }
    requires flow { length flow.now ≡ length problem.now.arcs.list }
    requires rest { length rest.now ≡ problem.now.arcs.nodes }
    requires excesses { (v : ℕ) → numbers_of rest.now v ≡ excess problem.now (flow_of flow.now) v }
    requires reached { IsReached problem.now (numbers_of _x.now) (flow_of flow.now) (numbers_of rest.now) tree.now.place.items tree.now.via.items }
    requires wanting { IsWanting tree.now.place.items (numbers_of rest.now) want }
    ensures path { IfOk result (λ w. IsPath problem.now (flow_of flow.now) w.path.items w.amount) }
    ensures free { IfOk result (λ w. (k : ℕ) → k < length w.path.items
        → IsFree problem.now (numbers_of _x.now) (flow_of flow.now)
        (slice_index w.path.items k)) }
{
    let list = problem.arcs.list.as_slice();
    let via = tree.via.as_slice();
    let mut back = Vec::new(alloc);
    let mut node = want;
    let mut amount = rest[want].unsigned_abs();
    while rest[node] <= 0 {
        let number = via[node];
        amount = narrowed(flow, number, amount);
        back.push(number)?;
        node = tail(list, number);
    }
    amount = amount.min(rest[node] as u64);
    Ok(Way {
        path: turned(alloc, &back)?,
        amount,
    })
}

/// What of the amount the residual arc has room for.
fn narrowed(flow: &[u64], number: u32, amount: u64) -> u64
    requires arc { number / 2 < length flow.now }
    ensures most { result ≤ amount }
    ensures some { 0 < amount → (number % 2 ≡ 1 → 0 < slice_index flow.now (number / 2)) → 0 < result }
    ensures room { number % 2 ≡ 1 → result ≤ slice_index flow.now (number / 2) }
{
    if number % 2 == 1 {
        amount.min(flow[(number / 2) as usize])
    } else {
        amount
    }
}

/// The numbers, the last one first.
fn turned(alloc: Global, numbers: &[u32]) -> Result<Vec<u32>, AllocError>
    ensures { IfOk result (λ all. all.items ≡ reverse numbers.now) }
{
    numbers.iter().rev().copied().collect(alloc)
}
