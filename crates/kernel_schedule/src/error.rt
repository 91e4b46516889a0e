// Why a kernel has no schedule.
ghost use Rattle.std.specs.Prelude.{◌≡◌, Some, IfOk};
ghost use Rattle.kernel_schedule.specs.Refused.{said};

use mx_base::{NoMemory, Text};
use offset_edges::{ClosedWalk, EdgeError};
use std::alloc::Global;

/// Why a kernel has no schedule.
#[derive(Debug, Drop)]
pub enum ScheduleError {
    /// The kernel has no problem: the table lacks a latency, or a closed walk looks back no tick.
    Edges(EdgeError),
    /// This closed walk looks back fewer ticks than its latencies sum to.
    Uncovered(ClosedWalk),
}

impl ScheduleError {
    /// The line that is said of the fault of a kernel of this name: its code, L1, C1 or C2, the
    /// kernel, and the operation and width, or the walk. Want of memory says none.
    pub fn line(&self, alloc: Global, kernel: &Text) -> Result<Vec<u8>, NoMemory>
        ensures { IfOk result (λ line. said kernel.now self.now ≡ Some line.items) }
    {
        match self {
            ScheduleError::Edges(error) => error.line(alloc, kernel),
            ScheduleError::Uncovered(walk) => walk.line(alloc, "C2", kernel),
        }
    }
}
