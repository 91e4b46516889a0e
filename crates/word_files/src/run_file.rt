// What a run file says.
use mx_base::{List, Text};

/// How a text is run.
#[derive(Drop)]
pub struct RunFile {
    /// The ticks of each kernel, at most 2^40.
    pub ticks: List<(Text, u64)>,
    /// The word of each scalar `KERNEL.NAME`.
    pub scalars: List<(Text, u128)>,
    /// The file that each input stream reads.
    pub inputs: List<(Text, Text)>,
    /// The file that each output stream writes.
    pub outputs: List<(Text, Text)>,
    /// The most edges after the reset edge, at most 2^40.
    pub edges: u64,
    /// The pattern number.
    pub pick: u64,
    /// What a memory is filled with.
    pub fill: u128,
}
