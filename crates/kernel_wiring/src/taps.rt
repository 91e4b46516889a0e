// The signals from which a node reads its operands.
ghost use Rattle.std.specs.Prelude.{◌≡◌, ◌<◌, map, length, All, Contains, IfOk};
ghost use Rattle.stream_graph.specs.LookUps.{type_at};
ghost use Rattle.kernel_layout.specs.Waits.{stages_by};
ghost use Rattle.kernel_wiring.specs.Words.{late_of, read_signal, operand_signal};
ghost use Rattle.kernel_wiring.specs.Words.{reads_at, taps_at, IsReadIn};

use fix_arith::StreamType;
use kernel_layout::{Layout, Read};
use mx_base::{List, NoMemory};
use rtl_build::Signal;
use rtl_ir::NetId;
use std::alloc::Global;
use stream_graph::{Kernel, NodeId};

// The signal of the wait with this number of advances.
fn waiting_signal(waits: &[u64], signals: &[Signal], wait: u64) -> Signal
    requires same { length signals.now ≡ length waits.now }
    requires kept { Contains waits.now wait }
    ensures { result ≡ late_of waits.now signals.now wait }
{
    for place in 0..waits.len() {
        if waits[place] == wait {
            return signals[place];
        }
    }
    unreachable!("the word waits so long")
}

// The signal that shows a word so many advances after it was computed: after its latency, if it has
// one, or after one of its waits behind that.
fn late_signal(latency: u32, waits: &[u64], signals: &[Signal], behind: u64) -> Signal
    requires same { length signals.now ≡ length (stages_by latency waits.now) }
    requires kept { Contains (stages_by latency waits.now) behind }
    ensures { result ≡ late_of (stages_by latency waits.now) signals.now behind }
{
    if latency == 0 {
        return waiting_signal(waits, signals, behind);
    }
    let wait = behind - u64::from(latency);
    if wait == 0 {
        return signals[0];
    }
    waiting_signal(waits, &signals[1..], wait)
}

/// The signal of a read: its source's word as it was computed, or so many advances after.
pub(crate) fn read_signal(
    layout: &Layout,
    late: &[List<Signal>],
    words: &[Signal],
    read: Read,
) -> Signal
    requires { IsReadIn layout.now late.now words.now read }
    ensures { result ≡ read_signal layout.now late.now words.now read }
{
    let source = read.source as usize;
    if read.behind == 0 {
        return words[source];
    }
    late_signal(
        *layout.pipeline.at(source),
        layout.waits.at(source).as_slice(),
        late[source].as_slice(),
        read.behind,
    )
}

/// The signal from which a node reads the operand with this place.
pub(crate) fn operand_signal(
    layout: &Layout,
    late: &[List<Signal>],
    words: &[Signal],
    node: NodeId,
    place: usize,
) -> Signal
    requires node { node < length layout.now.reads }
    requires place { place < length (reads_at layout.now node) }
    requires reads { All (IsReadIn layout.now late.now words.now)
        (reads_at layout.now node) }
    ensures { result ≡ operand_signal layout.now late.now words.now node place }
{
    let reads = layout.reads.at(node.index()).as_slice();
    read_signal(layout, late, words, reads[place])
}

/// The nets from which a node reads its operands, in their order.
pub(crate) fn read_nets(
    alloc: Global,
    layout: &Layout,
    late: &[List<Signal>],
    words: &[Signal],
    node: NodeId,
) -> Result<Vec<NetId>, NoMemory>
    requires node { node < length layout.now.reads }
    requires reads { All (IsReadIn layout.now late.now words.now)
        (reads_at layout.now node) }
    ensures { IfOk result (λ nets. nets.items ≡ taps_at layout.now late.now words.now node) }
{
    let reads = layout.reads.at(node.index()).as_slice();
    let mut nets = Vec::new(alloc);
    for read in reads {
        nets.push(read_signal(layout, late, words, *read).net())?;
    }
    Ok(nets)
}

// The type of a node's words.
fn type_of(kernel: &Kernel, id: NodeId) -> StreamType
    requires { id < length kernel.now.nodes }
    ensures { result ≡ type_at kernel.now.nodes id }
{
    kernel.node(id).t
}

/// The types of the words of nodes, in their order.
pub(crate) fn types_of(
    alloc: Global,
    kernel: &Kernel,
    operands: &[NodeId],
) -> Result<Vec<StreamType>, NoMemory>
    requires { All (λ operand. operand < length kernel.now.nodes) operands.now }
    ensures { IfOk result (λ types. types.items ≡ map (type_at kernel.now.nodes) operands.now) }
{
    let mut types = Vec::new(alloc);
    for operand in operands {
        types.push(type_of(kernel, *operand))?;
    }
    Ok(types)
}
