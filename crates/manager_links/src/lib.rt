//! The kernels of a project with the plan that they were built by, and the links between them: what
//! each port is joined to, when each kernel starts, and how deep the FIFO of each link is.
//!
//! `specs/Terminals` has what joins can end at, `specs/Rules` which plans are refused and why,
//! `specs/Projects` what a project keeps, and `specs/Starts` when kernels start.
#![tactic(auto)]

mod ends;
mod error;
mod hosts;
mod joining;
mod joints;
mod kernel_order;
mod links;
mod names;
mod placing;
mod project;
mod starting;
mod terminals;

pub use error::{EndName, LinkError};
pub use hosts::HostPort;
pub use joints::Joints;
pub use links::{Link, LinkEnds, Links, PortAt};
pub use project::Project;
pub use starting::starts;
