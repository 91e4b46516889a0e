// The walk that a refusal shows.
ghost use Rattle.std.specs.Prelude.{◌≡◌, ℕ, ◌<◌, ◌≤◌, ◌++◌, take, drop, length, slice_index, IfOk};
ghost use Rattle.offset_edges.specs.Edges.{edge_at, IsSmall};
ghost use Rattle.offset_edges.specs.Walks.{IsClosed, start_of, offsets_of, latencies_of, AreNumbers, IsShown, IsSummed};

use crate::Edge;
use mx_base::{List, NoMemory};
use std::alloc::Global;

/// A closed walk of edges: its nodes in order, from the least number on; the sum of their
/// latencies, in ticks; and the sum of the edges' offsets, in ticks ahead.
#[derive(Debug, Drop)]
pub struct ClosedWalk {
    pub nodes: List<u32>,
    pub latency: u64,
    pub offset: i64,
}

/// The walk over the edges of these numbers, one round of which is given from any place on.
pub(crate) fn walk_over(
    alloc: Global,
    edges: &[Edge],
    ticks: &[u32],
    round: &[u32],
) -> Result<ClosedWalk, NoMemory>
    requires some { 0 < length round.now }
    requires few { length round.now ≤ 4096 }
    requires closed { IsClosed edges.now round.now }
    requires edges { (j : ℕ) → j < length edges.now → IsSmall (length ticks.now) (edge_at edges.now j) }
    requires ticks { (n : ℕ) → slice_index ticks.now n ≤ 64 }
    ensures shown { IfOk result (λ walk. IsShown (λ n. slice_index ticks.now n) edges.now walk) }
    ensures offset { IfOk result (λ walk. walk.offset ≡ offsets_of edges.now round.now) }
    ensures latency { IfOk result (λ walk.
        walk.latency ≡ latencies_of (λ n. slice_index ticks.now n) edges.now round.now) }
{
    let first = least_start(edges, round);
    let numbers = turned(alloc, round, first)?;
    sum_over(alloc, edges, ticks, numbers.as_slice())
}

// The same round, from a place on.
fn turned(alloc: Global, round: &[u32], first: usize) -> Result<Vec<u32>, NoMemory>
    requires { first ≤ length round.now }
    ensures { IfOk result (λ numbers. numbers.items ≡ drop first round.now ++ take first round.now) }
{
    let mut numbers = round[first..].to_vec(alloc)?;
    numbers.extend_from_slice(&round[..first])?;
    Ok(numbers)
}

// The place, among edges, of the one that starts at the least node.
fn least_start(edges: &[Edge], numbers: &[u32]) -> usize
    requires some { 0 < length numbers.now }
    requires numbers { AreNumbers edges.now numbers.now }
    ensures within { result < length numbers.now }
    ensures least { (i : ℕ) → i < length numbers.now
        → start_of edges.now (slice_index numbers.now result)
        ≤ start_of edges.now (slice_index numbers.now i) }
{
    let mut least = 0;
    for place in 0..numbers.len() {
        if edges[numbers[place] as usize].from < edges[numbers[least] as usize].from {
            least = place;
        }
    }
    least
}

// The nodes at which edges start, with the sums of the latencies and of the offsets.
fn sum_over(
    alloc: Global,
    edges: &[Edge],
    ticks: &[u32],
    numbers: &[u32],
) -> Result<ClosedWalk, NoMemory>
    requires few { length numbers.now ≤ 4096 }
    requires numbers { AreNumbers edges.now numbers.now }
    requires edges { (j : ℕ) → j < length edges.now → IsSmall (length ticks.now) (edge_at edges.now j) }
    requires ticks { (n : ℕ) → slice_index ticks.now n ≤ 64 }
    ensures { IfOk result (λ walk. IsSummed (λ n. slice_index ticks.now n) edges.now numbers.now walk) }
{
    let mut nodes = List::new(alloc);
    let mut latency = 0;
    let mut offset = 0;
    for number in numbers {
        let edge = edges[*number as usize];
        nodes.push(edge.from)?;
        latency += u64::from(ticks[edge.from as usize]);
        offset += edge.offset;
    }
    Ok(ClosedWalk {
        nodes,
        latency,
        offset,
    })
}
