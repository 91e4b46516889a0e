// An order of the arcs for the first sweep. Nothing rests on it: the answer is the same after any order.
use crate::arcs::Arcs;
use std::alloc::{AllocError, Global};

/// The arcs from each node as a chain: above the number of the first one from each node, and beside
/// each arc above that of the next one, or 0 where there is none; and to how many arcs each node is
/// still the end.
#[derive(Drop)]
struct Chains {
    first: Vec<u32>,
    next: Vec<u32>,
    entering: Vec<u32>,
}

impl Chains {
    fn new(alloc: Global, arcs: &Arcs) -> Result<Chains, AllocError> {
        let nodes = arcs.nodes as usize;
        let mut chains = Chains {
            first: vec![in alloc; 0u32; nodes]?,
            next: vec![in alloc; 0u32; arcs.list.len()]?,
            entering: vec![in alloc; 0u32; nodes]?,
        };
        let mut number = 0u32;
        for arc in arcs.list.as_slice() {
            chains.put_first(arc.from, number);
            if let Some(count) = chains.entering.get_mut(arc.to as usize) {
                *count = count.saturating_add(1);
            }
            number = number.wrapping_add(1);
        }
        Ok(chains)
    }

    fn put_first(&mut self, node: u32, number: u32) {
        if let Some(first) = self.first.get_mut(node as usize) {
            if let Some(next) = self.next.get_mut(number as usize) {
                *next = *first;
                *first = number.wrapping_add(1);
            }
        }
    }

    /// The first arc from a node, which is taken off its chain.
    fn take_from(&mut self, node: u32) -> Option<u32> {
        let first = self.first.get_mut(node as usize)?;
        let number = first.checked_sub(1)?;
        *first = *self.next.get(number as usize)?;
        Some(number)
    }

    /// Whether no further arc leads to the node, but one that is gone over now.
    fn is_last_to(&mut self, node: u32) -> bool {
        match self.entering.get_mut(node as usize) {
            Some(count) => {
                *count = count.wrapping_sub(1);
                *count == 0
            }
            None => false,
        }
    }
}

/// The numbers of the arcs, each behind those that lead to its start (Kahn 1962). Arcs on a cycle, and
/// behind one, are left out.
pub fn rising(alloc: Global, arcs: &Arcs) -> Result<Vec<u32>, AllocError> {
    let list = arcs.list.as_slice();
    let mut chains = Chains::new(alloc, arcs)?;
    let mut order = Vec::new(alloc);
    let mut ready = Vec::new(alloc);
    for node in 0..arcs.nodes {
        if chains.entering.get(node as usize) == Some(&0) {
            ready.push(node)?;
        }
    }
    for place in 0..arcs.nodes as usize {
        let Some(node) = ready.get(place).copied() else {
            break;
        };
        for _ in 0..list.len() {
            let Some(number) = chains.take_from(node) else {
                break;
            };
            order.push(number)?;
            if let Some(arc) = list.get(number as usize) {
                if chains.is_last_to(arc.to) {
                    ready.push(arc.to)?;
                }
            }
        }
    }
    Ok(order)
}
