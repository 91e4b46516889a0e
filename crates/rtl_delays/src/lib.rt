//! Delays in netlists: registers, and rings in memory, which show what a net had so many advances
//! ago.
//!
//! A delay is started before the wires that it follows are there, and closed when they are, since
//! its updates come last. What each call keeps of the module is `Extends` (`specs/Extends`).
#![tactic(auto)]

mod elements;
mod laws;
mod naming;
mod registers;
mod rings;

pub use elements::{Element, close_element, start_element};
pub use laws::{acceptance, beginnings};
pub use registers::{follow, start_register};
pub use rings::{Ring, close_ring, start_ring};
