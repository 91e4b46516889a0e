//! The control of a kernel's module: in which edges the kernel advances, what its ports are told,
//! and the position, which counts the advances.
//!
//! `specs/Refines` says when a module refines a kernel at its times, and `specs/IsControl` what
//! `add_control` gives towards it.
#![tactic(auto)]

mod activity;
mod answers;
mod control;
mod handshakes;
mod position;
mod serving;

pub use activity::active;
pub use control::add_control;
pub use handshakes::{ControlNets, Handshake};
