// What every kernel keeps of the types of its nodes and of its counters.
ghost use Rattle.kernel_types.specs.Types.{AreTyped, AreCounting};

use stream_graph::Kernel;

/// The nodes of a kernel are well typed, and its counters count. The function does nothing: its
/// contract is the law.
pub fn nodes_are_typed(kernel: &Kernel)
    ensures typed { AreTyped kernel.now.nodes }
    ensures counting { AreCounting kernel.now.nodes }
{
    let _kernel = kernel;
}
