// The words of the ports of a kernel.
ghost use Rattle.std.specs.Prelude.{◌≡◌, ◌<◌, ◌++◌, ◌∷◌, [], pos, length, if◌then◌else◌, IfOk, OnOk};
ghost use Rattle.stream_equations.specs.Equations.{GivenRun, enabled};
ghost use Rattle.stream_equations.specs.Words.{port_words};
ghost use Rattle.kernel_words.specs.Streams.{values_of};

use crate::Streams;
use mx_base::NoMemory;
use std::alloc::Global;
use stream_graph::{Kernel, NodeId};

/// Whether a node has no control and no store, or it is 1 in that tick, from 0. An undefined one
/// counts as 0.
pub fn is_enabled(kernel: &Kernel, streams: &Streams, node: NodeId, tick: u64) -> bool
    requires node { node < length kernel.now.nodes }
    ensures { result ≡ enabled kernel.now.nodes (values_of streams.now) node tick }
{
    match kernel.control(node) {
        Some(control) => streams.word(control, tick) == Some(1),
        None => true,
    }
}

/// The words of a port, which are those of its enabled ticks, in order; an undefined one is `None`.
/// The only error is want of memory.
pub fn port_words(
    alloc: Global,
    kernel: &Kernel,
    streams: &Streams,
    node: NodeId,
) -> Result<Vec<Option<u128>>, NoMemory>
    requires node { node < length kernel.now.nodes }
    ensures { IfOk result (λ words. (run : GivenRun) → run.ticks ≡ streams.now.ticks
        → words.items ≡ port_words kernel.now.nodes run (values_of streams.now) node) }
{
    let mut words = Vec::new(alloc);
    for tick in 0..streams.ticks() {
        push_word(kernel, streams, node, tick, &mut words)?;
    }
    Ok(words)
}

// Adds the word of a tick, where the port is enabled.
fn push_word(
    kernel: &Kernel,
    streams: &Streams,
    node: NodeId,
    tick: u64,
    words: &mut Vec<Option<u128>>,
) -> Result<(), NoMemory>
    requires node { node < length kernel.now.nodes }
    ensures { OnOk result (words.new.items ≡ (if enabled kernel.now.nodes (values_of streams.now) node tick
        then words.old.items ++ values_of streams.now node (pos tick) ∷ [] else words.old.items)) }
{
    if !is_enabled(kernel, streams, node, tick) {
        return Ok(());
    }
    words.push(streams.word(node, tick))?;
    Ok(())
}
