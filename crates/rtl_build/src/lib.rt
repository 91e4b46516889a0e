//! A builder of modules: each method adds to a module and says what it added.
//!
//! A `Netlist` is a module together with the fact that it is open (`specs/Wires`): its numbers are in
//! range, and its ports have nets. A net is handed out as a `Signal`, with its width. What a method
//! promises of a new net holds in every family of values that satisfies the module, then and later
//! (`specs/Signals`).
#![tactic(auto)]

mod netlist;
mod ports;
mod signal;
mod storage;
mod wires;

pub use netlist::Netlist;
pub use signal::Signal;
