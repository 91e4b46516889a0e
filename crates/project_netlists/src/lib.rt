//! What the design of a project needs of its kernels: for each kernel its module at its least
//! schedule and its part of a report, and when the kernels start, with the links between them.
//!
//! `specs/Netlists` says what they are, and `specs/Refused` why there are none.
#![tactic(auto)]

mod error;
mod laws;
mod making;
mod netlists;
mod schedules;

pub use error::NetlistsError;
pub use laws::refusals_are_exact;
pub use making::{ProjectNetlists, project_netlists};
