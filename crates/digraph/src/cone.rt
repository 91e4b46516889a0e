// The nodes from which there is a way to a node.
ghost use Rattle.std.specs.Prelude.{◌≡◌, ℕ, ◌+◌, ◌≤◌, ◌<◌, length, slice_index, IfOk};
ghost use Rattle.digraph.specs.Graph.{IsGraph};
ghost use Rattle.digraph.specs.FanIn.{IsFanIn, IsMet, Collects, all_left};

use crate::Row;
use crate::search::{read_at, reads_at};
use mx_base::NoMemory;
use std::alloc::Global;

/// Lists the nodes from which there is a way to the node `end`, itself among them.
///
/// `seen` has for each node the number of the last search that met it, which is less than that of
/// this one. So a search takes time in proportion to what it lists and what that reads.
pub fn fan_in(
    alloc: Global,
    graph: &[Row<u32>],
    seen: &mut [usize],
    number: usize,
    end: u32,
) -> Result<Vec<u32>, NoMemory>
    requires graph { IsGraph graph.now }
    requires size { length seen.old ≡ length graph.now }
    requires earlier { (x : ℕ) → slice_index seen.old x < number }
    requires end { end < length graph.now }
    ensures nodes { IfOk result (λ nodes. IsFanIn graph.now end nodes.items) }
    ensures size { IfOk result (λ nodes. length seen.new ≡ length graph.now) }
    ensures earlier { IfOk result (λ nodes. (x : ℕ) → slice_index seen.new x ≤ number) }
{
    let mut nodes = Vec::new(alloc);
    meet(seen, number, &mut nodes, end)?;
    let mut done = 0;
    while done < nodes.len() {
        meet_reads(graph, seen, number, &mut nodes, done)?;
        done += 1;
    }
    Ok(nodes)
}

/// Marks and lists a node, unless this search met it before.
fn meet(seen: &mut [usize], number: usize, nodes: &mut Vec<u32>, node: u32) -> Result<(), NoMemory>
    requires node { node < length seen.old }
    ensures { IfOk result (λ r. IsMet number node seen.old nodes.old.items seen.new nodes.new.items) }
{
    if seen[node as usize] == number {
        return Ok(());
    }
    seen[node as usize] = number;
    nodes.push(node)?;
    Ok(())
}

/// Meets what a listed node reads, where all that those before it read is met.
fn meet_reads(
    graph: &[Row<u32>],
    seen: &mut [usize],
    number: usize,
    nodes: &mut Vec<u32>,
    done: usize,
) -> Result<(), NoMemory>
    requires graph { IsGraph graph.now }
    requires size { length seen.old ≡ length graph.now }
    requires done { done < length nodes.old.items }
    requires node { slice_index nodes.old.items done < length graph.now }
    ensures collects { IfOk result (λ r. (end : ℕ) → Collects graph.now end number seen.old nodes.old.items done
        → Collects graph.now end number seen.new nodes.new.items (done + 1)) }
    ensures left { IfOk result (λ r. all_left number seen.new nodes.new.items ≡ all_left number seen.old nodes.old.items) }
{
    let reads = reads_at(graph, nodes[done]);
    for i in 0..reads.len() {
        meet(seen, number, nodes, read_at(reads, i))?;
    }
    Ok(())
}
