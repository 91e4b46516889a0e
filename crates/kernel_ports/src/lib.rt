//! The ports of a kernel's module: a netlist that has them and nothing else, and their signals.
//!
//! `specs/HasKernelPorts` says what the netlist and the signals are. What a finished module needs
//! of its ports stays while it grows (`ports_kept`).
#![tactic(auto)]

mod laws;
mod ports;
mod signals;
mod streams;

pub use laws::ports_kept;
pub use ports::kernel_ports;
pub use signals::{KernelSignals, NodeSignal, StreamSignals};
