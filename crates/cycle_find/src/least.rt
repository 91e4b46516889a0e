// The least solution, or a positive cycle.
ghost use Rattle.std.specs.Prelude.{◌≡◌, ℕ, ◌<◌, ◌≤◌, ◌*◌, ◌^◌, pos, ◌≤ℤ◌, length, slice_index, unsigned_abs, IfOk, IfErr};
ghost use Rattle.cycle_find.specs.Constraints.{numbers_of, need_of, IsLeast, IsSolvable, EndsInRange, NeedsWithin};
ghost use Rattle.cycle_find.specs.Search.{Refutes, so_far};

use crate::arcs::{Arc, Arcs, Cycle};
use crate::order::rising;
use crate::search::{arc_number, sweep, sweep_along, walk_back};
use mx_base::NoMemory;
use std::alloc::{AllocError, Global};

/// Why there are no numbers.
#[derive(Drop)]
pub enum SolveError {
    /// A simple closed walk whose needs sum above 0, so that nothing meets its arcs.
    Cycle(Cycle),
    /// No memory was left.
    NoMemory,
}

impl From<NoMemory> for SolveError {
    ghost from_gives = { λ _ e. e ≡ NoMemory };

    ghost use Rattle.cycle_find.specs.declared.least.SolveError.TheVariants.{NoMemory};

    fn from(_: NoMemory) -> Self {
        SolveError::NoMemory
    }
}

impl From<AllocError> for SolveError {
    ghost from_gives = { λ _ e. e ≡ NoMemory };

    ghost use Rattle.cycle_find.specs.declared.least.SolveError.TheVariants.{NoMemory};

    fn from(_: AllocError) -> Self {
        SolveError::NoMemory
    }
}

/// The least numbers, none below 0, that meet all arcs: one per node, and each at most the number of
/// nodes times the greatest size of a need. `Cycle` comes exactly where no numbers meet all arcs. The
/// time is linear where the arcs have no cycle.
pub fn solve(alloc: Global, arcs: &Arcs) -> Result<Vec<i64>, SolveError>
    requires { IsSolvable arcs.now }
    ensures one_each { IfOk result (λ x. length x.items ≡ arcs.now.nodes) }
    ensures least { IfOk result (λ x. IsLeast (numbers_of x.items) arcs.now.list) }
    ensures within { IfOk result (λ x. (size : ℕ) → NeedsWithin size arcs.now.list
        → (v : ℕ) → numbers_of x.items v ≤ℤ pos (arcs.now.nodes * size)) }
    ensures cycle { IfErr result (Refutes arcs.now.list) }
{
    let order = rising(alloc, arcs)?;
    solve_along(alloc, arcs, order.as_slice())
}

/// The same as `solve` answers, by a sweep over the arcs of these numbers in their order, and then
/// sweeps over all arcs that go forwards and backwards in turn. Whatever the order is, the answer is
/// the same; after a good one the second sweep is the last.
pub fn solve_along(alloc: Global, arcs: &Arcs, order: &[u32]) -> Result<Vec<i64>, SolveError>
    requires { IsSolvable arcs.now }
    ensures one_each { IfOk result (λ x. length x.items ≡ arcs.now.nodes) }
    ensures least { IfOk result (λ x. IsLeast (numbers_of x.items) arcs.now.list) }
    ensures within { IfOk result (λ x. (size : ℕ) → NeedsWithin size arcs.now.list
        → (v : ℕ) → numbers_of x.items v ≤ℤ pos (arcs.now.nodes * size)) }
    ensures cycle { IfErr result (Refutes arcs.now.list) }
{
    let list = arcs.list.as_slice();
    let nodes = arcs.nodes as usize;
    let size = greatest(list, arcs.nodes);
    let limit = arcs.nodes as u64 * size;
    let mut numbers = vec![in alloc; 0u64; nodes]?;
    let mut arcs_of = vec![in alloc; 0u32; nodes]?;
    let x = numbers.as_mut_slice();
    let via = arcs_of.as_mut_slice();
    if let Some(node) = sweep_along(list, order, x, via, size, limit) {
        if let Some(cycle) = walk_back(alloc, list, x, via, node)? {
            return Err(SolveError::Cycle(cycle));
        }
    }
    let mut back = false;
    while let Some(node) = sweep(list, x, via, size, limit, back) {
        if let Some(cycle) = walk_back(alloc, list, x, via, node)? {
            return Err(SolveError::Cycle(cycle));
        }
        back = !back;
    }
    Ok(signed(alloc, x)?)
}

/// The greatest size of a need.
fn greatest(list: &[Arc], nodes: u32) -> u64
    requires ends { EndsInRange nodes list.now }
    requires needs { (j : ℕ) → j < length list.now → nodes * unsigned_abs (need_of list.now j) ≤ 2 ^ 60 }
    ensures within { NeedsWithin result list.now }
    ensures least { (size : ℕ) → NeedsWithin size list.now → result ≤ size }
    ensures small { nodes * result ≤ 2 ^ 60 }
    ensures one { result ≤ 2 ^ 60 }
{
    let mut most = 0;
    for j in 0..list.len() {
        let size = arc_number(list, j).need.unsigned_abs();
        if size > most {
            most = size;
        }
    }
    most
}

fn signed(alloc: Global, x: &[u64]) -> Result<Vec<i64>, AllocError>
    requires { (v : ℕ) → slice_index x.now v < 2 ^ 63 }
    ensures len { IfOk result (λ y. length y.items ≡ length x.now) }
    ensures same { IfOk result (λ y. (v : ℕ) → numbers_of y.items v ≡ so_far x.now v) }
{
    let mut y = Vec::new(alloc);
    for v in x {
        y.push(*v as i64)?;
    }
    Ok(y)
}
