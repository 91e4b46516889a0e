// What the control is made from.
use rtl_build::Signal;

/// A port of a kernel.
#[derive(Clone, Copy, PartialEq, Eq)]
pub struct Handshake {
    /// The time of the port's node, at most 2^46: the position at which it is in the first tick.
    pub time: u64,
    /// One bit, where the port has a control: in ticks in which it is 0 the port isn't due.
    pub enable: Option<Signal>,
    /// One bit: whether an input has a word, or an output has room.
    pub waits_for: Signal,
    /// The output, of one bit, that tells whether the kernel takes the word or gives one.
    pub answer: Signal,
}

/// The nets of a kernel's module that its control reads and writes, beside those of its ports.
#[derive(Clone, Copy, PartialEq, Eq)]
pub struct ControlNets {
    /// A register of 48 bits, which counts the advances since the last reset edge.
    pub position: Signal,
    /// One bit: whether the edge is a reset edge.
    pub reset: Signal,
    /// 48 bits: the number of ticks of the run.
    pub ticks: Signal,
    /// One bit: whether the kernel is held.
    pub hold: Signal,
    /// An output of one bit: whether the kernel has ended.
    pub ended: Signal,
}
