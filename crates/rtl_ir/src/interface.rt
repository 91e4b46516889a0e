// The ports of a top module, read once.

use crate::NetId;
use mx_base::{List, Text};

/// The ports of a kernel: whether it is held, of one bit, and how many ticks it runs, of 48 bits.
#[derive(Drop)]
pub struct KernelPorts {
    pub name: Text,
    pub hold: NetId,
    pub ticks: NetId,
}

/// The port of a scalar of a kernel, with its width of 1 to 128 bits.
#[derive(Drop)]
pub struct ScalarPort {
    pub kernel: Text,
    pub name: Text,
    pub width: u8,
    pub net: NetId,
}

/// The ports of a host stream: its words, of 1 to 128 bits, and the two bits of its handshake. A word
/// moves at a clock edge where `valid` and `ready` are both 1.
#[derive(Drop)]
pub struct StreamPorts {
    pub name: Text,
    pub width: u8,
    pub word: NetId,
    pub valid: NetId,
    pub ready: NetId,
}

/// What the outside sees of a top module: its ports by what they are for, with their names, widths
/// and nets.
#[derive(Drop)]
pub struct Interface {
    pub clock: NetId,
    pub reset: NetId,
    pub kernels: List<KernelPorts>,
    pub scalars: List<ScalarPort>,
    pub inputs: List<StreamPorts>,
    pub outputs: List<StreamPorts>,
    pub done: NetId,
}
