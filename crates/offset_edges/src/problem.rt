// The problem of a kernel's schedules.
ghost use Rattle.std.specs.Prelude.{◌≡◌, ℕ, ◌<◌, ◌≤◌, ◌^◌, length, slice_index, slice_index_or, option_to_list, IfOk};
ghost use Rattle.offset_edges.specs.Edges.{edge_at, IsSmall};
ghost use Rattle.stream_graph.specs.LookUps.{width_at};
ghost use Rattle.offset_edges.specs.Problems.{arcs_over, term_of, base_of, terms_below, base_below, problem_over, AreReaders};

use crate::Edge;
use cycle_find::{Arc, Arcs};
use mx_base::{List, NoMemory};
use schedule_problem::{Problem, Term};
use std::alloc::Global;
use stream_graph::{Kernel, NodeId};

/// The problem of a kernel, from its edges and latencies. Node `u` has the time of node `u` of the
/// kernel; node `n + u`, for `n` nodes, has the time up to which the words of node `u` are kept.
pub(crate) fn problem_over(
    alloc: Global,
    kernel: &Kernel,
    edges: &[Edge],
    ticks: &[u32],
) -> Result<Problem, NoMemory>
    requires len { length ticks.now ≡ length kernel.now.nodes }
    requires edges { (j : ℕ) → j < length edges.now → IsSmall (length ticks.now) (edge_at edges.now j) }
    requires ticks { (n : ℕ) → slice_index ticks.now n ≤ 64 }
    ensures { IfOk result (λ problem. problem
        ≡ problem_over (λ n. slice_index ticks.now n) kernel.now.nodes edges.now) }
{
    let nodes = kernel.count();
    let list = arcs(alloc, nodes, edges, ticks)?;
    let readers = first_readers(alloc, nodes, edges)?;
    let terms = terms(alloc, kernel, readers.as_slice())?;
    Ok(Problem {
        arcs: Arcs {
            nodes: 2 * nodes,
            list,
        },
        terms,
        base: base(kernel, ticks, readers.as_slice()),
    })
}

// Two arcs an edge: the reader comes after the latency of the node that it reads and so many ticks
// ahead, and the words are kept until it has read them.
fn arcs(alloc: Global, nodes: u32, edges: &[Edge], ticks: &[u32]) -> Result<List<Arc>, NoMemory>
    requires nodes { nodes ≤ 4096 }
    requires len { length ticks.now ≡ nodes }
    requires edges { (j : ℕ) → j < length edges.now → IsSmall nodes (edge_at edges.now j) }
    requires ticks { (n : ℕ) → slice_index ticks.now n ≤ 64 }
    ensures { IfOk result (λ arcs. arcs ≡ arcs_over nodes (λ n. slice_index ticks.now n) edges.now) }
{
    let mut arcs = List::new(alloc);
    for edge in edges {
        let latency = i64::from(ticks[edge.from as usize]);
        arcs.push(Arc {
            from: edge.from,
            to: edge.to,
            need: latency + edge.offset,
        })?;
        arcs.push(Arc {
            from: edge.to,
            to: nodes + edge.from,
            need: -edge.offset,
        })?;
    }
    Ok(arcs)
}

// For each node the one that reads it over the first edge.
fn first_readers(alloc: Global, nodes: u32, edges: &[Edge]) -> Result<Vec<Option<u32>>, NoMemory>
    requires { (j : ℕ) → j < length edges.now → IsSmall nodes (edge_at edges.now j) }
    ensures { IfOk result (λ readers. AreReaders nodes edges.now readers.items) }
{
    let mut readers = vec![in alloc; None; nodes as usize]?;
    for number in (0..edges.len()).rev() {
        let edge = edges[number];
        readers[edge.from as usize] = Some(edge.to);
    }
    Ok(readers)
}

// A term for each node that is read.
fn terms(alloc: Global, kernel: &Kernel, readers: &[Option<u32>]) -> Result<List<Term>, NoMemory>
    requires { length readers.now ≡ length kernel.now.nodes }
    ensures { IfOk result (λ terms. terms
        ≡ terms_below kernel.now.nodes (λ u. slice_index_or readers.now u None)
        (length kernel.now.nodes)) }
{
    let mut terms = List::new(alloc);
    for number in 0..kernel.count() {
        if let Some(term) = term(kernel, number, readers[number as usize]) {
            terms.push(term)?;
        }
    }
    Ok(terms)
}

// The term of a node that is read: its width for each tick that its words are kept.
fn term(kernel: &Kernel, number: u32, reader: Option<u32>) -> Option<Term>
    requires { number < length kernel.now.nodes }
    ensures { option_to_list result ≡ term_of kernel.now.nodes number reader }
{
    let reader = reader?;
    Some(Term {
        from: number,
        to: kernel.count() + number,
        weight: u32::from(width(kernel, number)),
        mid: reader,
    })
}

// What of all terms is no FIFO, since the words of a node are kept in it for the ticks of its
// latency.
fn base(kernel: &Kernel, ticks: &[u32], readers: &[Option<u32>]) -> u64
    requires len { length ticks.now ≡ length kernel.now.nodes }
    requires readers { length readers.now ≡ length kernel.now.nodes }
    requires ticks { (n : ℕ) → slice_index ticks.now n ≤ 64 }
    ensures { result
        ≡ base_below (λ n. slice_index ticks.now n) kernel.now.nodes
        (λ u. slice_index_or readers.now u None) (length kernel.now.nodes) }
{
    let mut base = 0;
    for number in 0..kernel.count() {
        base += base_at(kernel, ticks, number, readers[number as usize]);
    }
    base
}

// What of the term of a node is none.
fn base_at(kernel: &Kernel, ticks: &[u32], number: u32, reader: Option<u32>) -> u64
    requires node { number < length kernel.now.nodes }
    requires len { length ticks.now ≡ length kernel.now.nodes }
    requires ticks { (n : ℕ) → slice_index ticks.now n ≤ 64 }
    ensures value { result ≡ base_of (λ n. slice_index ticks.now n) kernel.now.nodes number reader }
    ensures at_most { result ≤ 8192 }
{
    match reader {
        Some(_) => u64::from(width(kernel, number)) * u64::from(ticks[number as usize]),
        None => 0,
    }
}

// The bits of a node's words.
fn width(kernel: &Kernel, number: u32) -> u8
    requires { number < length kernel.now.nodes }
    ensures value { result ≡ width_at kernel.now.nodes number }
    ensures at_most { result ≤ 128 }
{
    kernel.node(NodeId::new(number)).t.width()
}
