//! From a source that was read to its project: what its manager builds, the kernels of that plan,
//! and what joins them, or the first cause for which there is none.
//!
//! `specs/Building` has what kernels a plan asks for, and `specs/Causes` why there is no project.
#![tactic(auto)]

mod building;
mod error;

pub use building::build_project;
pub use error::ProjectError;
