//! The design of a project, built: a FIFO for each stream of the host and for each link between
//! kernels, the modules of the kernels, and the top module that joins them.
//!
//! What the design is, is said in the crate `project_rtl`.
#![tactic(auto)]

mod blocks;
mod building;
mod done;
mod fifos;
mod instances;
mod nodes;
mod places;
mod ports;
mod top;
mod wires;

pub use building::design;
pub use ports::ports_alone;
