//! Building runs: the constructor of a kernel's class, whose calls a builder receives and make a
//! kernel, and that of a manager's class, with what it builds.
#![tactic(auto)]

mod beginning;
mod building;
mod driver;
mod kernel;
mod manager;
mod refusal;
mod sending;

pub use building::{BuildError, build_kernel};
pub use kernel::eval;
pub use manager::eval_manager;
pub use refusal::line_of;
