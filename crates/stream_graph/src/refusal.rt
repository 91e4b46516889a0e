// The line that a graph says that is no kernel.
ghost use Rattle.std.specs.Prelude.{◌≡◌, ◌∷◌, [], Some, IfOk};
ghost use Rattle.std.specs.Fmt.{decimal};
ghost use Rattle.refusal_line.specs.Lines.{refused};
ghost use Rattle.stream_graph.specs.Lines.{fault_line};

use crate::{GraphError, NodeId};
use mx_base::{NoMemory, Text};
use refusal_line::{Value, refusal_line};
use std::alloc::Global;

impl GraphError {
    /// The line that is said of the fault of the kernel of this name: its code, the kernel, and the
    /// node, the port or the number of nodes. None is said of an offset out of range, which is
    /// refused where it is made, and of want of memory.
    pub fn line(&self, alloc: Global, kernel: &Text) -> Result<Vec<u8>, NoMemory>
        ensures { IfOk result (λ line. fault_line kernel.now self.now ≡ Some line.items) }
    {
        match self {
            GraphError::Unconnected(node) => node_line(alloc, "G1", kernel, *node),
            GraphError::ConnectedTwice(node) => node_line(alloc, "G2", kernel, *node),
            GraphError::SamePort(name) => {
                refusal_line(alloc, "G3", &[Value::Name(kernel), Value::Name(name)])
            }
            GraphError::TooManyNodes(count) => number_line(alloc, "G4", kernel, *count),
            GraphError::EmptyChain(node) => node_line(alloc, "G6", kernel, *node),
            GraphError::OffsetRange(_) => Err(NoMemory),
            GraphError::NoMemory => Err(NoMemory),
        }
    }
}

// The line of a code, a kernel and a node.
fn node_line(alloc: Global, code: &str, kernel: &Text, node: NodeId) -> Result<Vec<u8>, NoMemory>
    ensures { IfOk result (λ line. line.items ≡ refused code.now (kernel.now ∷ decimal node ∷ [])) }
{
    number_line(alloc, code, kernel, node.number())
}

// The line of a code, a kernel and a number.
fn number_line(alloc: Global, code: &str, kernel: &Text, number: u32) -> Result<Vec<u8>, NoMemory>
    ensures { IfOk result (λ line. line.items ≡ refused code.now (kernel.now ∷ decimal number ∷ [])) }
{
    refusal_line(
        alloc,
        code,
        &[Value::Name(kernel), Value::Number(number as u64)],
    )
}
