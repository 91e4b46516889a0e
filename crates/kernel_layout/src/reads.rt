// Where the operands of nodes are read.
ghost use Rattle.std.specs.Prelude.{◌≡◌, ◌<◌, ◌≤◌, length, IfOk};
ghost use Rattle.cycle_find.specs.Constraints.{numbers_of};
ghost use Rattle.stream_graph.specs.Kinds.{is_steady, is_offset};
ghost use Rattle.offset_edges.specs.Edges.{AreSources};
ghost use Rattle.kernel_layout.specs.Reads.{AreTimes, IsLater, IsRead, AreReadsOf};
ghost use Rattle.kernel_layout.specs.Layouts.{AreReads};

use mx_base::{List, NoMemory};
use offset_edges::{Source, sources};
use std::alloc::Global;
use stream_graph::{Kernel, Kind, NodeId};

/// Where an operand is read: from this node, which is no offset, so many advances after its word
/// was computed.
#[derive(Clone, Copy, Debug, PartialEq, Eq)]
pub struct Read {
    pub source: u32,
    pub behind: u64,
}

// Whether the words of a node of this kind are one word in all ticks.
fn is_steady(kind: Kind) -> bool
    ensures { result ≡ is_steady kind }
{
    matches!(kind, Kind::Constant(_) | Kind::Scalar)
}

fn is_offset(kind: Kind) -> bool
    ensures { result ≡ is_offset kind }
{
    matches!(kind, Kind::Offset(_))
}

// How a node reads an operand.
fn read_of(kernel: &Kernel, sources: &[Source], times: &[i64], reader: u32, operand: NodeId) -> Read
    requires reader { reader < length kernel.now.nodes }
    requires operand { operand < length kernel.now.nodes }
    requires sources { AreSources kernel.now.nodes (length kernel.now.nodes) sources.now }
    requires all { length kernel.now.nodes ≤ length times.now }
    requires times { AreTimes kernel.now.nodes (numbers_of times.now) }
    requires later { IsLater kernel.now.nodes (numbers_of times.now) reader operand }
    ensures { IsRead kernel.now.nodes (numbers_of times.now) reader operand result }
{
    let source = sources[operand.index()];
    if is_steady(kernel.node(NodeId::new(source.node)).kind) {
        return Read {
            source: source.node,
            behind: 0,
        };
    }
    let behind = times[reader as usize] - times[source.node as usize] - source.offset;
    Read {
        source: source.node,
        behind: behind as u64,
    }
}

// How a node reads its operands, in their order. An offset reads nothing itself.
fn reads_of(
    alloc: Global,
    kernel: &Kernel,
    sources: &[Source],
    times: &[i64],
    reader: u32,
) -> Result<List<Read>, NoMemory>
    requires reader { reader < length kernel.now.nodes }
    requires sources { AreSources kernel.now.nodes (length kernel.now.nodes) sources.now }
    requires all { length kernel.now.nodes ≤ length times.now }
    requires times { AreTimes kernel.now.nodes (numbers_of times.now) }
    ensures { IfOk result (AreReadsOf kernel.now.nodes (numbers_of times.now) reader) }
{
    let mut reads = List::new(alloc);
    let id = NodeId::new(reader);
    if is_offset(kernel.node(id).kind) {
        return Ok(reads);
    }
    for operand in kernel.operands(id) {
        reads.push(read_of(kernel, sources, times, reader, *operand))?;
    }
    Ok(reads)
}

/// How each node of a kernel reads its operands, in node order.
pub(crate) fn all_reads(
    alloc: Global,
    kernel: &Kernel,
    times: &[i64],
) -> Result<Vec<List<Read>>, NoMemory>
    requires all { length kernel.now.nodes ≤ length times.now }
    requires times { AreTimes kernel.now.nodes (numbers_of times.now) }
    ensures { IfOk result (λ reads.
        AreReads kernel.now.nodes (numbers_of times.now) (length kernel.now.nodes) reads.items) }
{
    let sources = sources(alloc, kernel)?;
    let mut reads = Vec::new(alloc);
    for reader in 0..kernel.count() {
        reads.push(reads_of(alloc, kernel, sources.as_slice(), times, reader)?)?;
    }
    Ok(reads)
}
