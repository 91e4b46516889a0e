// The closed walk at the end of a path.
ghost use Rattle.std.specs.Prelude.{◌≡◌, ◌≢◌, ℕ, ◌≤◌, ◌<◌, length, slice_index, IfOk, IfSome, IfNone};
ghost use Rattle.digraph.specs.Search.{IsTurned};

use mx_base::NoMemory;
use std::alloc::Global;

/// Where a node stands on a path.
pub fn place_of(path: &[u32], node: u32) -> Option<usize>
    ensures found { IfSome result (λ at. (at < length path.now) × (slice_index path.now at ≡ node)) }
    ensures none { IfNone result ((j : ℕ) → j < length path.now → slice_index path.now j ≢ node) }
{
    for at in 0..path.len() {
        if path[at] == node {
            return Some(at);
        }
    }
    None
}

/// The walk of a path from a place on, against the path's direction and from its least node.
pub fn walk_from(alloc: Global, path: &[u32], at: usize) -> Result<Vec<u32>, NoMemory>
    requires at { at < length path.now }
    ensures { IfOk result (λ walk. IsTurned path.now at walk.items) }
{
    let least = least_from(path, at);
    let mut walk = Vec::new(alloc);
    for i in 0..least - at + 1 {
        walk.push(path[least - i])?;
    }
    for i in 0..path.len() - 1 - least {
        walk.push(path[path.len() - 1 - i])?;
    }
    Ok(walk)
}

/// The place of the least node from a place on.
fn least_from(path: &[u32], at: usize) -> usize
    requires at { at < length path.now }
    ensures within { result < length path.now }
    ensures from { at ≤ result }
    ensures least { (j : ℕ) → at ≤ j → j < length path.now → slice_index path.now result ≤ slice_index path.now j }
{
    let mut least = at;
    for j in at..path.len() {
        if path[j] < path[least] {
            least = j;
        }
    }
    least
}
