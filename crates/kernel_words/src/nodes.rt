// Reading the nodes of a kernel.
ghost use Rattle.std.specs.Prelude.{◌≡◌, ◌≤◌, ◌<◌, length};
ghost use Rattle.fix_arith.specs.Types.{HasWidth};
ghost use Rattle.stream_graph.specs.LookUps.{
  kind_at,
  operand_at,
  operands_at,
  width_at,
  digits_at,
  type_at,
};

use counter_chains::CounterDigit;
use fix_arith::StreamType;
use stream_graph::{Kernel, Kind, NodeId};

/// What a node is.
pub(crate) fn kind_of(kernel: &Kernel, node: NodeId) -> Kind
    requires { node < length kernel.now.nodes }
    ensures { result ≡ kind_at kernel.now.nodes node }
{
    kernel.node(node).kind
}

/// The type of a node's words.
pub(crate) fn type_of(kernel: &Kernel, node: NodeId) -> StreamType
    requires { node < length kernel.now.nodes }
    ensures is { result ≡ type_at kernel.now.nodes node }
    ensures width { HasWidth result }
{
    kernel.node(node).t
}

/// The bits of a node's words.
pub(crate) fn width_of(kernel: &Kernel, node: NodeId) -> u8
    requires { node < length kernel.now.nodes }
    ensures is { result ≡ width_at kernel.now.nodes node }
    ensures some { 1 ≤ result }
    ensures most { result ≤ 128 }
{
    type_of(kernel, node).width()
}

/// The number of a node's operands.
pub(crate) fn operand_count(kernel: &Kernel, node: NodeId) -> usize
    requires { node < length kernel.now.nodes }
    ensures { result ≡ length (operands_at kernel.now.nodes node) }
{
    kernel.operands(node).len()
}

/// An operand of a node, by its place from 0.
pub(crate) fn operand(kernel: &Kernel, node: NodeId, place: usize) -> NodeId
    requires node { node < length kernel.now.nodes }
    requires place { place < length (operands_at kernel.now.nodes node) }
    ensures is { result ≡ operand_at kernel.now.nodes node place }
    ensures inside { result < length kernel.now.nodes }
{
    kernel.operands(node)[place]
}

/// What a counter or a chain counts through.
pub(crate) fn digits_of(kernel: &Kernel, node: NodeId) -> &[CounterDigit]
    requires { node < length kernel.now.nodes }
    ensures { result.now ≡ digits_at kernel.now.nodes node }
{
    kernel.digits(node)
}
