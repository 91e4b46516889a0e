// Nodes that wait in a search, the nearest first.
ghost use Rattle.std.specs.Prelude.{◌≡◌, ◌+◌, ◌<◌, ℕ, [], length, IfOk, IfSome, OnOk, OnErr};
ghost use Rattle.std.specs.Prelude.{IfNone};
ghost use Rattle.schedule_flow.specs.Queue.{Waits, IsQueued, IsNearest};

use mx_base::NoMemory;
use std::alloc::Global;
use std::cmp::Reverse;
use std::collections::BinaryHeap;
use std::marker::Model;

/// Nodes with their distances from where a search began. A contract sees the entries, in any order.
#[derive(Drop)]
pub struct Queue {
    heap: BinaryHeap<(Reverse<u128>, u32)>,
}

impl Model for Queue {
    ghost use Rattle.std.specs.Prelude.{List as Items};
    ghost use Rattle.std.specs.BinaryHeap.{heap_items, IsHeap};
    ghost use Rattle.schedule_flow.specs.Queue.{Entry, nearer};

    ghost Value = { Items Entry };

    ghost view = { λ q. heap_items q.heap };

    ghost invariant = { λ q. IsHeap nearer (heap_items q.heap) };
}

impl Queue {
    /// The empty queue.
    pub fn new(alloc: Global) -> Queue
        ensures { result ≡ [] }
    {
        Queue {
            heap: BinaryHeap::new(alloc),
        }
    }

    /// Lets a node wait at a distance.
    pub fn push(&mut self, distance: u128, node: u32) -> Result<(), NoMemory>
        ensures { OnOk result (IsQueued self.old self.new distance node) }
    {
        self.heap.push((Reverse(distance), node))?;
        Ok(())
    }

    /// Takes out a node with the least distance, and that distance.
    pub fn pop(&mut self) -> Option<(u128, u32)>
        ensures nearest { IfSome result (λ e. IsNearest self.old self.new e.0 e.1) }
        ensures less { IfSome result (λ _. length self.new < length self.old) }
        ensures none { IfNone result ((d v : ℕ) → Waits self.old d v → ⊥) }
    {
        let (Reverse(distance), node) = self.heap.pop()?;
        Some((distance, node))
    }
}
