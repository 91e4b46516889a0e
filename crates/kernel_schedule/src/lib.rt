//! The schedule of a kernel whose FIFOs hold the fewest bits, or why the kernel has none.
//!
//! That the least bits are a linear program whose dual is a flow is in Leiserson and Saxe, Retiming
//! Synchronous Circuitry, 1991.
#![tactic(auto)]

mod error;
mod schedule;

pub use error::ScheduleError;
pub use schedule::{Schedule, best_schedule};
