// Raising nodes arc by arc, and walking back along the arcs that raised them.
ghost use Rattle.std.specs.Prelude.{◌≡◌, ℕ, ◌<◌, ◌≤◌, ◌+◌, ◌*◌, ◌^◌, length, reverse, drop, slice_index, IfOk, IfNone, IfSome, IsTrue, IsFalse};
ghost use Rattle.std.specs.List.{sum};
ghost use Rattle.cycle_find.specs.Constraints.{arc_at, end_of, start_of, Meets, Solves, EndsInRange, NeedsWithin, IsPositiveCycle};
ghost use Rattle.cycle_find.specs.Search.{IsRaised, Rises, IsWithinBut, so_far, place_at};

use crate::arcs::{Arc, Cycle};
use mx_base::{List, NoMemory};
use std::alloc::{AllocError, Global};

/// Arc number `j`, from 0.
pub fn arc_number(list: &[Arc], j: usize) -> Arc
    requires { j < length list.now }
    ensures { result ≡ arc_at list.now j }
{
    list[j]
}

/// Raises the end of arc `j` where the arc asks for more.
pub fn raise(list: &[Arc], j: usize, x: &mut [u64], via: &mut [u32], size: u64) -> bool
    requires arc { j < length list.now }
    requires few { length list.now < 2 ^ 32 }
    requires ends { EndsInRange (length x.old) list.now }
    requires size { NeedsWithin size list.now }
    requires small { (v : ℕ) → slice_index x.old v ≤ 2 ^ 60 }
    requires room { size ≤ 2 ^ 60 }
    requires raised { IsRaised list.now x.old via.old }
    ensures raised { IsRaised list.now x.new via.new }
    ensures rises { IsTrue result → Rises x.old x.new (start_of list.now j) (end_of list.now j) size }
    ensures met { IsFalse result → (x.new ≡ x.old) × Meets (so_far x.old) list.now j }
{
    let arc = arc_number(list, j);
    let reached = x[arc.from as usize] as i64 + arc.need;
    if reached <= x[arc.to as usize] as i64 {
        return false;
    }
    x[arc.to as usize] = reached as u64;
    via[arc.to as usize] = j as u32;
    true
}

// The number of the arc at which a sweep over so many arcs is after so many steps.
fn place_at(count: usize, step: usize, back: bool) -> usize
    requires { step < count }
    ensures { result ≡ place_at count back step }
{
    if back { count - 1 - step } else { step }
}

/// Goes once over the arcs, from the first on, or back from the last. It answers the node that it
/// raised last, and stops at one above the limit.
pub fn sweep(
    list: &[Arc],
    x: &mut [u64],
    via: &mut [u32],
    size: u64,
    limit: u64,
    back: bool,
) -> Option<usize>
    requires few { length list.now < 2 ^ 32 }
    requires ends { EndsInRange (length x.old) list.now }
    requires size { NeedsWithin size list.now }
    requires room { size ≤ 2 ^ 60 }
    requires limit { limit ≤ 2 ^ 60 }
    requires raised { IsRaised list.now x.old via.old }
    requires within { (v : ℕ) → slice_index x.old v ≤ limit }
    ensures raised { IsRaised list.now x.new via.new }
    ensures solved { IfNone result (Solves (so_far x.new) list.now) }
    ensures same { IfNone result (x.new ≡ x.old) }
    ensures more { IfSome result (λ _. sum x.old < sum x.new) }
    ensures within { IfSome result (IsWithinBut x.new limit size) }
{
    let mut last = None;
    for step in 0..list.len() {
        let j = place_at(list.len(), step, back);
        if raise(list, j, x, via, size) {
            let node = arc_number(list, j).to as usize;
            last = Some(node);
            if x[node] > limit {
                return last;
            }
        }
    }
    last
}

/// Goes over arcs in the order of these numbers, and passes over a number that is none of an arc. It
/// stops at a node above the limit, and answers it.
pub fn sweep_along(
    list: &[Arc],
    order: &[u32],
    x: &mut [u64],
    via: &mut [u32],
    size: u64,
    limit: u64,
) -> Option<usize>
    requires few { length list.now < 2 ^ 32 }
    requires ends { EndsInRange (length x.old) list.now }
    requires size { NeedsWithin size list.now }
    requires room { size ≤ 2 ^ 60 }
    requires limit { limit ≤ 2 ^ 60 }
    requires raised { IsRaised list.now x.old via.old }
    requires within { (v : ℕ) → slice_index x.old v ≤ limit }
    ensures raised { IsRaised list.now x.new via.new }
    ensures within { IfNone result ((v : ℕ) → slice_index x.new v ≤ limit) }
    ensures above { IfSome result (IsWithinBut x.new limit size) }
{
    for number in order {
        let j = *number as usize;
        if j < list.len() && raise(list, j, x, via, size) {
            let node = arc_number(list, j).to as usize;
            if x[node] > limit {
                return Some(node);
            }
        }
    }
    None
}

/// Walks back from a node along the arcs that raised it: to a node that nothing raised, or round a cycle.
pub fn walk_back(
    alloc: Global,
    list: &[Arc],
    x: &[u64],
    via: &[u32],
    start: usize,
) -> Result<Option<Cycle>, NoMemory>
    requires start { start < length x.now }
    requires nodes { length x.now ≤ 2 ^ 16 }
    requires ends { EndsInRange (length x.now) list.now }
    requires raised { IsRaised list.now x.now via.now }
    ensures root { IfOk result (λ found. IfNone found ((size : ℕ) → NeedsWithin size list.now
        → slice_index x.now start ≤ length x.now * size)) }
    ensures cycle { IfOk result (λ found. IfSome found (λ c. IsPositiveCycle list.now c.arcs)) }
{
    let mut places = vec![in alloc; 0u32; x.len()]?;
    let place = places.as_mut_slice();
    let mut path: Vec<u32> = Vec::new(alloc);
    let mut node = start;
    while x[node] > 0 && place[node] == 0 {
        let arc = via[node];
        path.push(arc)?;
        place[node] = path.len() as u32;
        node = arc_number(list, arc as usize).from as usize;
    }
    if x[node] == 0 {
        return Ok(None);
    }
    let first = place[node] as usize - 1;
    let arcs = turned(alloc, &path, first)?;
    Ok(Some(Cycle {
        arcs: List::from_vec(arcs),
    }))
}

/// The arcs from place `first` on, the last one first.
fn turned(alloc: Global, path: &[u32], first: usize) -> Result<Vec<u32>, AllocError>
    requires { first ≤ length path.now }
    ensures { IfOk result (λ arcs. arcs.items ≡ reverse (drop first path.now)) }
{
    path[first..].iter().rev().copied().collect(alloc)
}
