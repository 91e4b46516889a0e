// The signals of a kernel's ports.
use mx_base::List;
use rtl_build::Signal;

/// The port of a scalar.
#[derive(Clone, Copy, PartialEq, Eq)]
pub struct NodeSignal {
    /// The number of the scalar's node.
    pub node: u32,
    /// The scalar's word, of the width of its type.
    pub signal: Signal,
}

/// The three ports of an input or an output.
#[derive(Clone, Copy, PartialEq, Eq)]
pub struct StreamSignals {
    /// The number of the node of the input or output.
    pub node: u32,
    /// The word, of the width of its type.
    pub word: Signal,
    /// One bit: whether there is a word.
    pub valid: Signal,
    /// One bit: whether it is taken.
    pub ready: Signal,
}

/// The signals of the ports of a kernel's module, but for its clock. Ports of a kind stand in node
/// order.
#[derive(Drop)]
pub struct KernelSignals {
    /// One bit: whether the edge is a reset edge.
    pub reset: Signal,
    /// One bit: whether the kernel is held.
    pub hold: Signal,
    /// 48 bits: the number of ticks of the run.
    pub ticks: Signal,
    pub scalars: List<NodeSignal>,
    pub inputs: List<StreamSignals>,
    pub outputs: List<StreamSignals>,
    /// One bit, an output: whether the kernel has ended.
    pub ended: Signal,
}
