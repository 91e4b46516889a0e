// A place among the words of a kernel.

/// A tick of a node, both numbered from 0.
#[derive(Clone, Copy, PartialEq, Eq)]
pub struct Place {
    pub node: u32,
    pub tick: u64,
}
