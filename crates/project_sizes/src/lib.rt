//! How large the design of a project is, and what it stores.
#![tactic(auto)]

mod laws;

pub use laws::project_is_sized;
