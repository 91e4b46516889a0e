// What a search knows of each node.
ghost use Rattle.std.specs.Prelude.{◌≡◌, ◌≢◌, ℕ, ◌<◌, ◌≤◌, length, slice_index, IfOk};
ghost use Rattle.schedule_flow.specs.Search.{far};
ghost use Rattle.schedule_flow.specs.Tree.{IsTreeOf};

use std::alloc::{AllocError, Global};

/// The distance of a node that isn't reached.
const FAR: u128 = 1 << 126;

/// The nearest ways from where a search began: of each node its place among the settled nodes, from 1,
/// or 0 where it isn't settled; the residual arc by which it was reached; and its distance.
#[derive(Drop)]
pub struct Tree {
    pub place: Vec<u32>,
    pub via: Vec<u32>,
    pub distance: Vec<u128>,
}

impl Tree {
    /// A tree of so many nodes, before any search.
    pub fn new(alloc: Global, nodes: usize) -> Result<Tree, AllocError>
        ensures { IfOk result (IsTreeOf nodes) }
    {
        Ok(Tree {
            place: vec![in alloc; 0u32; nodes]?,
            via: vec![in alloc; 0u32; nodes]?,
            distance: vec![in alloc; 0u128; nodes]?,
        })
    }

    /// Begins a search at a node.
    pub fn begin(&mut self, source: usize)
        requires tree { IsTreeOf (length self.old.place.items) self.old }
        requires source { source < length self.old.place.items }
        ensures tree { IsTreeOf (length self.old.place.items) self.new }
        ensures places { (v : ℕ) → slice_index self.new.place.items v ≡ 0 }
        ensures source { slice_index self.new.distance.items source ≡ 0 }
        ensures others { (v : ℕ) → v < length self.new.distance.items → v ≢ source
            → slice_index self.new.distance.items v ≡ far }
        ensures within { (v : ℕ) → slice_index self.new.distance.items v ≤ far }
    {
        clear(
            self.place.as_mut_slice(),
            self.distance.as_mut_slice(),
            source,
        );
    }
}

fn clear(place: &mut [u32], distance: &mut [u128], source: usize)
    requires distances { length distance.old ≡ length place.old }
    requires source { source < length place.old }
    ensures places { (v : ℕ) → slice_index place.new v ≡ 0 }
    ensures source { slice_index distance.new source ≡ 0 }
    ensures others { (v : ℕ) → v < length distance.old → v ≢ source → slice_index distance.new v ≡ far }
    ensures within { (v : ℕ) → slice_index distance.new v ≤ far }
{
    for v in 0..place.len() {
        place[v] = 0;
        distance[v] = FAR;
    }
    distance[source] = 0;
}
