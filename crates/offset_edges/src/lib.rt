//! The edges of a kernel: which node reads which, and how many ticks ahead; whether the kernel is
//! causal; and the problem of its schedules.
//!
//! That a kernel's latencies and offsets make a problem of differences is in Leiserson and Saxe,
//! Retiming Synchronous Circuitry, 1991.
#![tactic(auto)]

mod causal;
mod edge;
mod error;
mod kernel;
mod latency;
mod law;
mod line;
mod problem;
mod source;
mod uncovered;
mod walk;

pub use edge::{Edge, edge_list};
pub use error::EdgeError;
pub use kernel::edges;
pub use latency::latencies;
pub use law::{schedules_are_solutions, solutions_are_schedules};
pub use source::{Source, sources};
pub use uncovered::uncovered_walk;
pub use walk::ClosedWalk;
