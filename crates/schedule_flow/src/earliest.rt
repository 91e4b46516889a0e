// The earliest of the times that cost what a flow is worth.
ghost use Rattle.std.specs.Prelude.{◌≡◌, ℕ, ◌+◌, ◌*◌, ◌<◌, ◌≤◌, ◌^◌, pos, ◌≤ℤ◌, length, unsigned_abs, IfOk};
ghost use Rattle.cycle_find.specs.Constraints.{Numbers, numbers_of, EndsInRange, NeedsWithin, Solves, IsNonNegative, IsSolvable};
ghost use Rattle.schedule_problem.specs.Flow.{flow_of};
ghost use Rattle.schedule_flow.specs.Network.{IsTight};
ghost use Rattle.schedule_flow.specs.Earliest.{IsTightened, SizesWithin, turned_arc};

use crate::arcs::{arc_count, arc_of};
use crate::settling::settling;
use cycle_find::{Arc, Arcs, SolveError, solve_along};
use mx_base::{List, NoMemory};
use schedule_problem::Problem;
use std::alloc::{AllocError, Global};

/// The arcs, and beside each that carries something the same arc turned round.
pub fn tightened(alloc: Global, problem: &Problem, flow: &[u64]) -> Result<Vec<Arc>, AllocError>
    requires few { length problem.now.arcs.list < 2 ^ 31 }
    requires ends { EndsInRange problem.now.arcs.nodes problem.now.arcs.list }
    requires needs { NeedsWithin (2 ^ 60) problem.now.arcs.list }
    requires flow { length flow.now ≡ length problem.now.arcs.list }
    ensures tightened { IfOk result (λ list. IsTightened problem.now (flow_of flow.now) list.items) }
    ensures few { IfOk result (λ list. length list.items < 2 ^ 32) }
    ensures ends { IfOk result (λ list. EndsInRange problem.now.arcs.nodes list.items) }
    ensures needs { IfOk result (λ list. (c size : ℕ) → SizesWithin c size problem.now.arcs.list
        → SizesWithin c size list.items) }
{
    let mut list = Vec::new(alloc);
    for j in 0..arc_count(problem) {
        let arc = arc_of(problem, j);
        list.push(arc)?;
        if flow[j] > 0 {
            list.push(turned(arc))?;
        }
    }
    Ok(list)
}

/// The arc turned round: where both hold, both are met with equality.
fn turned(arc: Arc) -> Arc
    requires { unsigned_abs arc.need ≤ 2 ^ 60 }
    ensures { result ≡ turned_arc arc }
{
    Arc {
        from: arc.to,
        to: arc.from,
        need: -arc.need,
    }
}

/// Of the legal times that are tight for the flow, the ones that are nowhere above others.
pub fn earliest(
    alloc: Global,
    problem: &Problem,
    flow: &[u64],
    x: &[i128],
) -> Result<Vec<i64>, NoMemory>
    requires few { length problem.now.arcs.list < 2 ^ 31 }
    requires arcs { IsSolvable problem.now.arcs }
    requires small { NeedsWithin (2 ^ 60) problem.now.arcs.list }
    requires flow { length flow.now ≡ length problem.now.arcs.list }
    requires legal { Solves (numbers_of x.now) problem.now.arcs.list }
    requires tight { IsTight problem.now (numbers_of x.now) (flow_of flow.now) }
    ensures one_each { IfOk result (λ y. length y.items ≡ problem.now.arcs.nodes) }
    ensures legal { IfOk result (λ y. Solves (numbers_of y.items) problem.now.arcs.list) }
    ensures tight { IfOk result (λ y. IsTight problem.now (numbers_of y.items) (flow_of flow.now)) }
    ensures low { IfOk result (λ y. IsNonNegative (numbers_of y.items)) }
    ensures within { IfOk result (λ y. (size : ℕ) → NeedsWithin size problem.now.arcs.list
        → (v : ℕ) → numbers_of y.items v ≤ℤ pos (problem.now.arcs.nodes * size)) }
    ensures least { IfOk result (λ y. (z : Numbers) → Solves z problem.now.arcs.list
        → IsTight problem.now z (flow_of flow.now) → IsNonNegative z
        → (v : ℕ) → numbers_of y.items v ≤ℤ z v) }
{
    let list = tightened(alloc, problem, flow)?;
    let arcs = Arcs {
        nodes: problem.arcs.nodes,
        list: List::from_vec(list),
    };
    let order = settling(alloc, &arcs, x)?;
    match solve_along(alloc, &arcs, order.as_slice()) {
        Ok(times) => Ok(times),
        Err(SolveError::NoMemory) => Err(NoMemory),
        Err(SolveError::Cycle(_)) => unreachable!(),
    }
}
