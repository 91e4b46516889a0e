//! Definitions of what a project computes and of when its links are as deep as its words need.
//!
//! `specs/Streams` has the equations of all kernels together, `specs/Guarded` which runs have all
//! their controls and stores defined, `specs/Ideal` the run in which nothing waits, and
//! `specs/Balanced` which runs are balanced. The functions do nothing: their contracts are the laws.
#![tactic(auto)]

mod laws;
mod side;

pub use laws::{equal_ticks_are_balanced, one_kernel_is_balanced};
pub use side::Side;
