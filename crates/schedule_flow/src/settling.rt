// The order in which arcs are gone over to find the earliest times. Nothing rests on it: the times are
// the same after any order.
use crate::queue::Queue;
use cycle_find::{Arc, Arcs};
use mx_base::NoMemory;
use std::alloc::{AllocError, Global};

/// The arcs from each node as a chain, and how far each node is known to fall.
#[derive(Drop)]
struct Falls {
    first: Vec<u32>,
    next: Vec<u32>,
    least: Vec<u128>,
}

impl Falls {
    fn new(alloc: Global, arcs: &Arcs, x: &[i128]) -> Result<Falls, AllocError> {
        let mut falls = Falls {
            first: vec![in alloc; 0u32; arcs.nodes as usize]?,
            next: vec![in alloc; 0u32; arcs.list.len()]?,
            least: Vec::new(alloc),
        };
        for time in x {
            falls.least.push(time.unsigned_abs())?;
        }
        let mut number = 0u32;
        for arc in arcs.list.as_slice() {
            falls.put_first(arc.from, number);
            number = number.wrapping_add(1);
        }
        Ok(falls)
    }

    fn put_first(&mut self, node: u32, number: u32) {
        if let Some(first) = self.first.get_mut(node as usize) {
            if let Some(next) = self.next.get_mut(number as usize) {
                *next = *first;
                *first = number.wrapping_add(1);
            }
        }
    }

    /// The first arc from a node, which is taken off its chain.
    fn take_from(&mut self, node: u32) -> Option<u32> {
        let first = self.first.get_mut(node as usize)?;
        let number = first.checked_sub(1)?;
        *first = *self.next.get(number as usize)?;
        Some(number)
    }

    /// Whether a node falls no farther than this so far.
    fn is_at(&self, node: u32, fall: u128) -> bool {
        match self.least.get(node as usize) {
            Some(least) => *least == fall,
            None => false,
        }
    }

    /// How far the end of an arc can fall, where that is less than was known.
    fn lowered(&mut self, arc: Arc, x: &[i128], fall: u128) -> Option<u128> {
        let from = *x.get(arc.from as usize)?;
        let to = *x.get(arc.to as usize)?;
        let slack = to.wrapping_sub(from).wrapping_sub(i128::from(arc.need));
        let reached = fall.saturating_add(slack.unsigned_abs());
        let least = self.least.get_mut(arc.to as usize)?;
        if reached < *least {
            *least = reached;
            Some(reached)
        } else {
            None
        }
    }
}

/// The numbers of the arcs by how far their starts fall from these times to the earliest ones, the least
/// first (Dijkstra 1959, over the slack of the arcs).
pub fn settling(alloc: Global, arcs: &Arcs, x: &[i128]) -> Result<Vec<u32>, NoMemory> {
    let list = arcs.list.as_slice();
    let mut falls = Falls::new(alloc, arcs, x)?;
    let mut queue = Queue::new(alloc);
    for node in 0..arcs.nodes {
        if let Some(time) = x.get(node as usize) {
            queue.push(time.unsigned_abs(), node)?;
        }
    }
    let mut order = Vec::new(alloc);
    for _ in 0..list.len().saturating_add(x.len()) {
        let Some((fall, node)) = queue.pop() else {
            break;
        };
        if !falls.is_at(node, fall) {
            continue;
        }
        for _ in 0..list.len() {
            let Some(number) = falls.take_from(node) else {
                break;
            };
            order.push(number)?;
            if let Some(arc) = list.get(number as usize) {
                if let Some(reached) = falls.lowered(*arc, x, fall) {
                    queue.push(reached, arc.to)?;
                }
            }
        }
    }
    Ok(order)
}
