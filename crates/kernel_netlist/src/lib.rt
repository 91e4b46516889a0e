//! The module of one kernel at its least schedule, with what a report says of the kernel, or why
//! there is none.
//!
//! `specs/Netlists` says what they are, and `specs/Refused` when there are none.
#![tactic(auto)]

mod error;
mod making;

pub use error::NetlistError;
pub use making::{KernelNetlist, kernel_netlist};
