// What is handed to a run.

use mx_base::{List, Text};

/// What a run of a design is handed: the values of the ports that keep one value, a file and the
/// width of its words for each stream, in the order of the ports, and the numbers of the run file.
#[derive(Drop)]
pub struct Plan {
    /// The ticks of each kernel, below 2^48.
    pub ticks: List<u64>,
    /// The word of each scalar.
    pub scalars: List<u128>,
    pub inputs: List<(Text, u8)>,
    pub outputs: List<(Text, u8)>,
    /// The most edges after the reset edge.
    pub edges: u64,
    /// The pattern number.
    pub pick: u64,
    /// What registers and memory words hold before the reset edge, by its low bits.
    pub fill: u128,
}
