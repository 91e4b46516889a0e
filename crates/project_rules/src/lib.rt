//! The laws that the design of a project keeps all rules of designs.
//!
//! They speak of designs by the definitions of `project_rtl`.
#![tactic(auto)]

mod laws;

pub use laws::{project_is_accepted, refinements_keep_rules};
