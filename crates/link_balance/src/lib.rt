//! Whether a link between kernels is as deep as its words need, in the ideal run, in which nothing
//! waits.
//!
//! `specs/Ports` says what the values of the code stand for.
#![tactic(auto)]

mod fault;
mod passed;
mod port_run;
mod shortage;

pub use fault::{LinkFault, first_fault};
pub use port_run::PortRun;
