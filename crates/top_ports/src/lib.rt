//! The ports of a top module that can be run: their test, and what they are for.
#![tactic(auto)]

mod cut;
mod laws;
mod reading;
mod role;
mod stage;
mod wrong;

pub use laws::one_shape;
pub use reading::interface;
pub use wrong::first_wrong;
