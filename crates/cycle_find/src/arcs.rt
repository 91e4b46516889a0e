// The constraints, and the walk that refutes them.
use mx_base::List;

/// Asks that the number of `to` is at least the number of `from` plus `need`.
#[derive(Clone, Copy, PartialEq, Eq)]
pub struct Arc {
    pub from: u32,
    pub to: u32,
    pub need: i64,
}

/// Constraints between the nodes below `nodes`.
#[derive(Drop)]
pub struct Arcs {
    pub nodes: u32,
    pub list: List<Arc>,
}

/// The numbers of the arcs of a closed walk, in order: each starts where the one before ends, and the
/// first where the last ends.
#[derive(Drop)]
pub struct Cycle {
    pub arcs: List<u32>,
}
