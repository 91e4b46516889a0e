// What is to be scheduled, and the answer.
use cycle_find::Arcs;
use mx_base::List;

/// Costs `weight` times the time from node `from` to node `to`. Its route is the arc from `from` to
/// `to` where `mid` is `to`, else an arc from `from` to `mid` and one from `mid` to `to`.
#[derive(Clone, Copy, PartialEq, Eq)]
pub struct Term {
    pub from: u32,
    pub to: u32,
    pub weight: u32,
    pub mid: u32,
}

/// Constraints on the times of nodes, each in whole ticks, and what times cost: the sum of what the
/// terms cost, less `base`.
#[derive(Drop)]
pub struct Problem {
    pub arcs: Arcs,
    pub terms: List<Term>,
    pub base: u64,
}

/// A time for each node, and what a flow carries on each arc: the dual certificate of the times.
#[derive(Drop)]
pub struct Answer {
    pub times: List<i64>,
    pub flow: List<u64>,
}
