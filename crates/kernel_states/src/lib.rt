//! The registers in which a kernel's module keeps the states of its nodes: of holds the word that
//! was stored last, of counters their value, and of chains those of all their counters.
//!
//! A register is started before the wires that read it and the words that it takes are there, and
//! closed when they are (`specs/Starting`, `specs/Closing`).
#![tactic(auto)]

mod closing;
mod counters;
mod laws;
mod registers;
mod starting;

pub use closing::close_states;
pub use laws::digits_are_sound;
pub use registers::AdvanceNets;
pub use starting::start_states;
