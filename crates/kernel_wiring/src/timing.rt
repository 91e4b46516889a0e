// By what a kernel's module knows in which tick a node is.
use mx_base::List;
use rtl_build::Signal;

/// By what a kernel's module knows in which tick a node is.
#[derive(Drop)]
pub struct Timing {
    /// 48 bits: how often the kernel has advanced.
    pub position: Signal,
    /// 48 bits: the number of ticks of the run.
    pub ticks: Signal,
    /// The times of the nodes, in node order and in advances, at most 2^46.
    pub times: List<u64>,
}
