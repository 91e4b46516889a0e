// A search in depth first that keeps its path, so that graphs of any depth take one stack frame.
ghost use Rattle.std.specs.Prelude.{◌≡◌, ℕ, ◌≤◌, ◌<◌, [], length, slice_index, vec_len, IfOk, IfSome, IfNone};
ghost use Rattle.digraph.specs.Graph.{IsGraph, reads_of};
ghost use Rattle.digraph.specs.Search.{Searches, IsStuck, IsOpened, IsClosed};

use crate::Row;
use crate::walk::place_of;
use mx_base::NoMemory;

/// A search in progress.
#[derive(Drop)]
pub struct Search {
    /// The place of each node that is done, from 1, and 0 of the others.
    pub rank: Vec<usize>,
    /// The nodes that the search never met.
    pub fresh: Vec<bool>,
    /// The nodes that wait, each for the next one.
    pub path: Vec<u32>,
    /// How many of its reads each of these has behind it.
    pub next: Vec<usize>,
    /// The nodes that are done, in order.
    pub order: Vec<u32>,
}

/// Gives a node and all that it reads their places, or finds where on the path a closed walk begins.
pub fn visit(graph: &[Row<u32>], search: &mut Search, node: u32) -> Result<Option<usize>, NoMemory>
    requires graph { IsGraph graph.now }
    requires searches { Searches graph.now search.old.rank.items search.old.fresh.items search.old.path.items search.old.next.items search.old.order.items }
    requires empty { search.old.path.items ≡ [] }
    requires node { node < length graph.now }
    requires unranked { slice_index search.old.rank.items node ≡ 0 }
    ensures done { IfOk result (λ r. IfNone r ((search.new.path.items ≡ []) × (0 < slice_index search.new.rank.items node))) }
    ensures searches { IfOk result
        (λ r. Searches graph.now search.new.rank.items search.new.fresh.items
        search.new.path.items search.new.next.items search.new.order.items) }
    ensures kept { IfOk result (λ r. (x : ℕ) → 0 < slice_index search.old.rank.items x → 0 < slice_index search.new.rank.items x) }
    ensures walk { IfOk result (λ r. IfSome r (λ at. IsStuck graph.now search.new.path.items at)) }
{
    open(search, node)?;
    while search.path.len() > 0 {
        let top = search.path.len() - 1;
        let node = search.path[top];
        let reads = reads_at(graph, node);
        let at = first_waiting(reads, search.rank.as_slice(), search.next[top]);
        if at == reads.len() {
            close(search, node)?;
        } else {
            search.next[top] = at;
            let waiting = read_at(reads, at);
            if search.fresh[waiting as usize] {
                open(search, waiting)?;
            } else {
                return Ok(place_of(search.path.as_slice(), waiting));
            }
        }
    }
    Ok(None)
}

/// Opens a node that was never met.
fn open(search: &mut Search, node: u32) -> Result<(), NoMemory>
    requires node { node < vec_len search.old.fresh }
    ensures { IfOk result (λ r. IsOpened search.old search.new node) }
{
    search.fresh[node as usize] = false;
    search.path.push(node)?;
    search.next.push(0)?;
    Ok(())
}

/// Gives the last node of the path its place.
fn close(search: &mut Search, node: u32) -> Result<(), NoMemory>
    requires node { node < vec_len search.old.rank }
    ensures { IfOk result (λ r. IsClosed search.old search.new node) }
{
    search.order.push(node)?;
    search.rank[node as usize] = search.order.len();
    search.path.pop();
    search.next.pop();
    Ok(())
}

/// The first of these reads, from a place on, that has no rank.
fn first_waiting(reads: &Row<u32>, rank: &[usize], from: usize) -> usize
    requires within { (i : ℕ) → i < length reads.now → slice_index reads.now i < length rank.now }
    requires from { from ≤ length reads.now }
    ensures within { result ≤ length reads.now }
    ensures from { from ≤ result }
    ensures ranked { (i : ℕ) → from ≤ i → i < result → 0 < slice_index rank.now (slice_index reads.now i) }
    ensures waiting { result < length reads.now → slice_index rank.now (slice_index reads.now result) ≡ 0 }
{
    let mut at = from;
    while at < reads.len() && rank[read_at(reads, at) as usize] > 0 {
        at += 1;
    }
    at
}

/// The nodes that a node reads.
pub fn reads_at(graph: &[Row<u32>], node: u32) -> &Row<u32>
    requires node { node < length graph.now }
    ensures { result.now ≡ reads_of graph.now node }
{
    &graph[node as usize]
}

/// The node at a place among those that a node reads.
pub fn read_at(reads: &Row<u32>, place: usize) -> u32
    requires { place < length reads.now }
    ensures { result ≡ slice_index reads.now place }
{
    reads.at(place)
}
