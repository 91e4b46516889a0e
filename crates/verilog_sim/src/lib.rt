//! The simulator of a checked design, edge by edge.
//!
//! A [`Sim`] holds what the registers and memories of a design hold, and the values of those outer
//! ports that keep one value. Each call of [`Sim::edge`] is one rising edge of the clock, after
//! which the registers and memories hold what IEEE 1364-2005 says of nonblocking assignments
//! (9.2.2). The meaning that the contracts speak of stands in the crate `rtl_ir`.
#![tactic(auto)]

mod batch;
mod cells;
mod clock;
mod compile;
mod drive;
mod error;
mod evaluate;
mod flatten;
mod inlining;
mod instruction;
mod laws;
mod level;
mod memory;
mod narrow;
mod offer;
mod operations;
mod order;
mod origin;
mod relocation;
mod scope;
mod settle;
mod sim;
mod start;
mod stimulus;
mod values;

pub use error::SimError;
pub use laws::cells_by_instances;
pub use offer::{Event, Offer};
pub use sim::Sim;
