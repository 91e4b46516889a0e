// The residual arcs that start at a node, as a chain.
ghost use Rattle.std.specs.Prelude.{◌≡◌, ℕ, ◌+◌, ◌*◌, ◌/◌, ◌<◌, ◌≤◌, ◌^◌, length, slice_set, slice_index, IfOk};
ghost use Rattle.cycle_find.specs.Constraints.{EndsInRange};
ghost use Rattle.schedule_flow.specs.Network.{tail_of};
ghost use Rattle.schedule_flow.specs.Adjacency.{IsAdjacency, IsLinkedBelow};

use crate::network::tail;
use cycle_find::{Arc, Arcs};
use std::alloc::{AllocError, Global};

/// The residual arcs that start at each node: `first` has a number above that of the node's last one, and
/// `before` has, for each residual arc, a number above that of the one before it at the same node. Both
/// have 0 where there is none.
#[derive(Drop)]
pub struct Adjacency {
    pub first: Vec<u32>,
    pub before: Vec<u32>,
}

/// Links the residual arcs of each node.
pub fn adjacency_of(alloc: Global, arcs: &Arcs) -> Result<Adjacency, AllocError>
    requires few { length arcs.now.list < 2 ^ 31 }
    requires ends { EndsInRange arcs.now.nodes arcs.now.list }
    ensures { IfOk result (λ a. IsAdjacency arcs.now.nodes arcs.now.list a.first.items a.before.items) }
{
    let list = arcs.list.as_slice();
    let mut first = vec![in alloc; 0u32; arcs.nodes as usize]?;
    let mut before = vec![in alloc; 0u32; 2 * list.len()]?;
    link(list, first.as_mut_slice(), before.as_mut_slice());
    Ok(Adjacency { first, before })
}

fn link(list: &[Arc], first: &mut [u32], before: &mut [u32])
    requires few { length list.now < 2 ^ 31 }
    requires ends { EndsInRange (length first.old) list.now }
    requires len { length before.old ≡ 2 * length list.now }
    requires zero { (v : ℕ) → slice_index first.old v ≡ 0 }
    ensures { IsLinkedBelow list.now (2 * length list.now) first.new before.new }
{
    for number in 0..before.len() {
        let node = tail(list, number as u32);
        before[number] = first[node];
        first[node] = number as u32 + 1;
    }
}
