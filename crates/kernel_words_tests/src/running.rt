// What a kernel computes over some words.
ghost use Rattle.std.specs.Prelude.{◌≤◌, ◌<◌, ◌*◌, ◌^◌, length, IsTrue, IfSome};
ghost use Rattle.offset_edges.specs.Edges.{edges_of};
ghost use Rattle.offset_edges.specs.Walks.{IsCausal};

use kernel_words::{KernelRun, first_unguarded, is_given, kernel_streams, port_words};
use latency_table::Table;
use mx_base::{List, NoMemory};
use offset_edges::edges;
use std::alloc::Global;
use stream_graph::{Kernel, Kind, NodeId};

// No operation takes a tick.
const AT_ONCE: &str = "{\"add\":[[1,0]],\"sub\":[[1,0]],\"mul\":[[1,0]],\"div\":[[1,0]],\"neg\":\
        [[1,0]],\"and\":[[1,0]],\"or\":[[1,0]],\"xor\":[[1,0]],\"not\":[[1,0]],\"eq\":\
        [[1,0]],\"ne\":[[1,0]],\"lt\":[[1,0]],\"le\":[[1,0]],\"gt\":[[1,0]],\"ge\":\
        [[1,0]],\"mux\":[[1,0]],\"round\":[[1,0]]}";

/// The words of the first output of a kernel, and whether its run is guarded; or why there are none.
#[derive(Debug, Drop)]
pub enum Ran {
    Words(Vec<Option<u128>>, bool),
    NotRun,
}

/// What a kernel computes in so many ticks over these words of its inputs, in node order; its
/// scalars are 0.
pub fn run_alone(
    alloc: Global,
    kernel: &Kernel,
    ticks: u64,
    inputs: &[&[u128]],
) -> Result<Ran, NoMemory> {
    let run = given_to(alloc, kernel, ticks, inputs)?;
    if !is_given(kernel, &run) || !is_small(kernel, run.ticks) || !is_causal(alloc, kernel) {
        return Ok(Ran::NotRun);
    }
    let streams = kernel_streams(alloc, kernel, &run)?;
    let guarded = first_unguarded(kernel, &streams).is_none();
    match first_output(kernel) {
        Some(node) => Ok(Ran::Words(port_words(alloc, kernel, &streams, node)?, guarded)),
        None => Ok(Ran::NotRun),
    }
}

fn is_small(kernel: &Kernel, ticks: u64) -> bool
    ensures { IsTrue result → length kernel.now.nodes * ticks ≤ 2 ^ 24 }
{
    match u64::from(kernel.count()).checked_mul(ticks) {
        Some(count) => count <= 1 << 24,
        None => false,
    }
}

fn is_causal(alloc: Global, kernel: &Kernel) -> bool
    ensures { IsTrue result → IsCausal (edges_of kernel.now.nodes) }
{
    match Table::read(alloc, AT_ONCE.as_bytes()) {
        Ok(table) => edges(alloc, kernel, &table).is_ok(),
        Err(_) => false,
    }
}

// The first output of a kernel.
fn first_output(kernel: &Kernel) -> Option<NodeId>
    ensures { IfSome result (λ node. node < length kernel.now.nodes) }
{
    for number in 0..kernel.count() {
        let node = NodeId::new(number);
        if let Kind::Output = kernel.node(node).kind {
            return Some(node);
        }
    }
    None
}

// These words for the inputs, in node order, and 0 for each scalar.
fn given_to(
    alloc: Global,
    kernel: &Kernel,
    ticks: u64,
    inputs: &[&[u128]],
) -> Result<KernelRun, NoMemory> {
    let mut scalars = List::new(alloc);
    let mut sources = List::new(alloc);
    let mut left = inputs.iter();
    for number in 0..kernel.count() {
        scalars.push(0)?;
        sources.push(match kernel.node(NodeId::new(number)).kind {
            Kind::Input => defined(alloc, left.next().copied().unwrap_or_default())?,
            _ => List::new(alloc),
        })?;
    }
    Ok(KernelRun {
        ticks,
        scalars,
        sources,
    })
}

fn defined(alloc: Global, words: &[u128]) -> Result<List<Option<u128>>, NoMemory> {
    let mut list = List::new(alloc);
    for word in words {
        list.push(Some(*word))?;
    }
    Ok(list)
}
