//! The law that a causal kernel computes one family of words: its stream equations have at most one
//! solution in each run.
//!
//! The word of a node in a tick hangs on those one step back (`specs/Steps`). In a causal kernel no
//! place is some steps behind itself, so that two families agree wherever all before it agree.
#![tactic(auto)]

mod law;
mod place;

pub use law::one_family;
pub use place::Place;
