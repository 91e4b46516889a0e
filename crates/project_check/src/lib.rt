//! The judgement on a report of a project's kernels.
//!
//! `specs/Checked` says what a report shows, and `specs/Refused` why one is refused.
#![tactic(auto)]

mod checking;
mod error;
mod faults;
mod problems;

pub use checking::{all_shown_are_least, check_report};
pub use error::CheckError;
