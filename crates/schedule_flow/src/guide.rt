// What is left of a guessed flow, as chains of arcs from each node. Nothing rests on it: `follow` tests
// each arc that it names.
use schedule_problem::Problem;
use std::alloc::{AllocError, Global};

/// What each arc is still to carry; above the number of an arc from each node, and beside each arc above
/// that of the one after it, or 0 where there is none.
#[derive(Drop)]
pub struct Guide {
    first: Vec<u32>,
    next: Vec<u32>,
    left: Vec<u64>,
}

impl Guide {
    /// The guide by a flow. From each node the arcs to nodes in want come first.
    pub fn new(
        alloc: Global,
        problem: &Problem,
        flow: &[u64],
        rest: &[i64],
    ) -> Result<Guide, AllocError> {
        let count = problem.arcs.list.len();
        let mut guide = Guide {
            first: vec![in alloc; 0u32; problem.arcs.nodes as usize]?,
            next: vec![in alloc; 0u32; count]?,
            left: Vec::from_slice(alloc, flow)?,
        };
        guide.link(problem, rest, false);
        guide.link(problem, rest, true);
        Ok(guide)
    }

    fn link(&mut self, problem: &Problem, rest: &[i64], in_want: bool) {
        let mut number = 0u32;
        for arc in problem.arcs.list.as_slice() {
            let wants = match rest.get(arc.to as usize) {
                Some(rest) => *rest < 0,
                None => false,
            };
            if wants == in_want && self.left_of(number) > 0 {
                self.put_first(arc.from, number);
            }
            number = number.wrapping_add(1);
        }
    }

    fn put_first(&mut self, node: u32, number: u32) {
        if let Some(first) = self.first.get_mut(node as usize) {
            if let Some(next) = self.next.get_mut(number as usize) {
                *next = *first;
                *first = number.wrapping_add(1);
            }
        }
    }

    fn left_of(&self, number: u32) -> u64 {
        match self.left.get(number as usize) {
            Some(amount) => *amount,
            None => 0,
        }
    }

    /// An arc from the node that is still to carry something.
    pub fn arc_from(&mut self, node: usize) -> Option<u32> {
        for _ in 0..self.next.len() {
            let link = *self.first.get(node)?;
            let number = link.checked_sub(1)?;
            if self.left_of(number) > 0 {
                return Some(number);
            }
            let next = *self.next.get(number as usize)?;
            *self.first.get_mut(node)? = next;
        }
        None
    }

    /// The least that the arcs of a path are still to carry.
    pub fn least(&self, path: &[u32]) -> u64 {
        let mut least = u64::MAX;
        for number in path {
            least = least.min(self.left_of(*number / 2));
        }
        least
    }

    /// Takes an amount from what the arcs of a path are still to carry.
    pub fn take(&mut self, path: &[u32], amount: u64) {
        for number in path {
            if let Some(left) = self.left.get_mut((*number / 2) as usize) {
                *left = left.saturating_sub(amount);
            }
        }
    }
}
