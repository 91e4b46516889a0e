//! The layout of a kernel's module at its least schedule, where the words that the module keeps
//! have few bits.
#![tactic(auto)]

mod error;
mod planned;
mod planning;

pub use error::PlanError;
pub use planned::Plan;
pub use planning::plan;
