//! The Verilog text of a project at the least schedules of its kernels, with what a report says of
//! it, or why there is none.
//!
//! `specs/Texts` says what the text is. Why there is none is said in the crate `project_netlists`.
#![tactic(auto)]

mod laws;
mod writing;

pub use laws::design_of_project;
pub use writing::{ProjectText, project_text};
