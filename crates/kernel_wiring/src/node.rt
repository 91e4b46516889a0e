// The wires of one node.
ghost use Rattle.std.specs.Prelude.{◌≡◌, ◌<◌, length, IfOk};
ghost use Rattle.stream_graph.specs.declared.node.Kind.TheVariants.{Hold};
ghost use Rattle.stream_graph.specs.LookUps.{kind_at};
ghost use Rattle.kernel_wiring.specs.Timing.{IsTiming};
ghost use Rattle.kernel_wiring.specs.Words.{signal_at, IsWordOf};
ghost use Rattle.kernel_wiring.specs.OneNode.{IsReadable, AddsWord};

use crate::Timing;
use crate::states::{held_word, part_word};
use crate::taps::{operand_signal, read_nets, types_of};
use kernel_layout::Layout;
use kernel_states::digits_are_sound;
use mx_base::{List, NoMemory};
use rtl_build::{Netlist, Signal};
use rtl_ops::fragment;
use std::alloc::Global;
use stream_graph::{Kernel, Kind, NodeId};

/// Adds the wires of a constant, an operation, a feed, an output, a part or a hold, and answers the
/// signal of its word. A node of another kind has none. Of a hold the word that it keeps is given.
pub(crate) fn node_word(
    alloc: Global,
    netlist: &mut Netlist,
    kernel: &Kernel,
    layout: &Layout,
    late: &[List<Signal>],
    words: &[Signal],
    timing: &Timing,
    node: NodeId,
) -> Result<Option<Signal>, NoMemory>
    requires node { node < length kernel.now.nodes }
    requires readable { IsReadable netlist.old kernel.now.nodes layout.now late.now words.now node }
    requires timing { IsTiming netlist.old kernel.now.nodes timing.now }
    requires kept { kind_at kernel.now.nodes node ≡ Hold
        → IsWordOf netlist.old kernel.now.nodes node (signal_at words.now node) }
    ensures { IfOk result (AddsWord netlist.old netlist.new kernel.now.nodes layout.now late.now
        words.now timing.now node) }
{
    let view = kernel.node(node);
    match view.kind {
        Kind::Constant(word) => Ok(Some(netlist.literal(word)?)),
        Kind::Operation(op, mode, amount) => {
            let types = types_of(alloc, kernel, kernel.operands(node))?;
            let nets = read_nets(alloc, layout, late, words, node)?;
            let word = fragment(
                netlist,
                op,
                mode,
                types.as_slice(),
                nets.as_slice(),
                amount,
                view.t,
            )?;
            Ok(Some(word))
        }
        Kind::Feed | Kind::Output => Ok(Some(operand_signal(layout, late, words, node, 0))),
        Kind::Part(place) => {
            digits_are_sound(kernel);
            let chain = operand_signal(layout, late, words, node, 0);
            let digits = kernel.digits(kernel.operands(node)[0]);
            let bits = view.t.width();
            Ok(Some(part_word(netlist, chain, digits, place, bits)?))
        }
        Kind::Hold => {
            let from = operand_signal(layout, late, words, node, 0);
            let store = operand_signal(layout, late, words, node, 1);
            let kept = words[node.index()];
            let time = *timing.times.at(node.index());
            let (position, ticks) = (timing.position, timing.ticks);
            let word = held_word(netlist, position, ticks, time, store, from, kept)?;
            Ok(Some(word))
        }
        _ => Ok(None),
    }
}
