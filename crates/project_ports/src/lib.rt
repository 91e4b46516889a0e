//! The ports of the design of a project, known without the design.
#![tactic(auto)]

mod ports;

pub use ports::project_ports;
