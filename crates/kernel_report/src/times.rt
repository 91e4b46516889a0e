// The times of a kernel's problem, from those of its nodes.
ghost use Rattle.std.specs.Prelude.{◌≡◌, ℕ, ◌*◌, ◌^◌, ◌<◌, ◌≤◌, ◌-ℤ◌, None, length, slice_index_or, unsigned_abs, IfOk};
ghost use Rattle.cycle_find.specs.Constraints.{numbers_of};
ghost use Rattle.offset_edges.specs.Edges.{edge_at, IsSmall};
ghost use Rattle.offset_edges.specs.Schedules.{greater};
ghost use Rattle.kernel_report.specs.Times.{last_read, kept_until, whole_times};

use mx_base::{List, NoMemory};
use offset_edges::{Edge, edge_list};
use std::alloc::Global;
use stream_graph::Kernel;

/// The times of the problem of a kernel whose `n` nodes have these times: node `u` has its own at
/// `u`, and at `n + u` the time up to which its words are kept.
pub(crate) fn whole_times(
    alloc: Global,
    kernel: &Kernel,
    times: &[i64],
) -> Result<List<i64>, NoMemory>
    requires nodes { length times.now ≡ length kernel.now.nodes }
    requires within { (v : ℕ) → unsigned_abs (numbers_of times.now v) ≤ 2 ^ 60 }
    ensures counted { IfOk result (λ whole. length whole ≡ 2 * length kernel.now.nodes) }
    ensures whole { IfOk result (λ whole. (v : ℕ) → numbers_of whole v
        ≡ whole_times kernel.now.nodes (numbers_of times.now) v) }
{
    let edges = edge_list(alloc, kernel)?;
    let kept = kept_times(alloc, times, edges.as_slice())?;
    let mut whole = times.to_vec(alloc)?;
    whole.extend_from_slice(kept.as_slice())?;
    Ok(List::from_vec(whole))
}

// For each node the time up to which its words are kept.
fn kept_times(alloc: Global, times: &[i64], edges: &[Edge]) -> Result<Vec<i64>, NoMemory>
    requires within { (v : ℕ) → unsigned_abs (numbers_of times.now v) ≤ 2 ^ 60 }
    requires edges { (j : ℕ) → j < length edges.now → IsSmall (length times.now) (edge_at edges.now j) }
    ensures counted { IfOk result (λ kept. length kept.items ≡ length times.now) }
    ensures kept { IfOk result (λ kept. (u : ℕ) → numbers_of kept.items u
        ≡ kept_until (numbers_of times.now) edges.now u) }
{
    let reads = last_reads(alloc, times, edges)?;
    let mut kept = Vec::new(alloc);
    for node in 0..times.len() {
        kept.push(reads[node].unwrap_or(times[node]))?;
    }
    Ok(kept)
}

// For each node the last time at which an edge reads a word of it, or `None` where no edge leads
// from it.
fn last_reads(alloc: Global, times: &[i64], edges: &[Edge]) -> Result<Vec<Option<i64>>, NoMemory>
    requires within { (v : ℕ) → unsigned_abs (numbers_of times.now v) ≤ 2 ^ 60 }
    requires edges { (j : ℕ) → j < length edges.now → IsSmall (length times.now) (edge_at edges.now j) }
    ensures counted { IfOk result (λ reads. length reads.items ≡ length times.now) }
    ensures reads { IfOk result (λ reads. (u : ℕ) → slice_index_or reads.items u None
        ≡ last_read (numbers_of times.now) edges.now u) }
{
    let mut reads = vec![in alloc; None; times.len()]?;
    for number in (0..edges.len()).rev() {
        let edge = edges[number];
        let node = edge.from as usize;
        reads[node] = Some(later(read_at(times, edge), reads[node]));
    }
    Ok(reads)
}

// The time of the word that an edge reads at its reader's time.
fn read_at(times: &[i64], edge: Edge) -> i64
    requires reader { edge.to < length times.now }
    requires offset { unsigned_abs edge.offset ≤ 2 ^ 32 }
    requires within { (v : ℕ) → unsigned_abs (numbers_of times.now v) ≤ 2 ^ 60 }
    ensures { result ≡ numbers_of times.now edge.to -ℤ edge.offset }
{
    times[edge.to as usize] - edge.offset
}

// The later of a time and another one, if there is one.
fn later(time: i64, other: Option<i64>) -> i64
    ensures { result ≡ greater time other }
{
    match other {
        Some(other) => time.max(other),
        None => time,
    }
}
