//! The words of all nodes of all kernels of a project in a run.
//!
//! `specs/Given` says what a value of a run gives, `specs/Words` which words a value has, and
//! `specs/Family` that a run has no other words.
#![tactic(auto)]

mod family;
mod given;
mod open;
mod settle;
mod sources;
mod words;

pub use family::one_project_family;
pub use given::ProjectRun;
pub use settle::project_words;
pub use words::ProjectWords;
