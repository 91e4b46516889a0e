// What a report says.
use mx_base::{List, Text};

/// A report in format 1: the parts of its kernels, in project order.
#[derive(Drop)]
pub struct Report {
    pub kernels: List<ReportKernel>,
}

/// What a report says of a kernel: how many nodes and edges it has, the bits of its FIFOs, the time
/// of each node, and what a flow carries on each arc, two for each edge.
#[derive(Drop)]
pub struct ReportKernel {
    pub name: Text,
    pub nodes: u32,
    pub edges: u32,
    pub bits: u64,
    pub times: List<i64>,
    pub flow: List<u64>,
}
