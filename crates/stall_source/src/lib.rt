//! Which ports of a design stall, edge by edge.
#![tactic(auto)]

mod pattern;
mod program;

pub use pattern::Pattern;
pub use program::program_stalls;
