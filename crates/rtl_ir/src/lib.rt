//! Netlists: modules of nets, memories, assignments, updates and instances, and what they mean.
//!
//! A design is what a text of the Verilog subset says. Its meaning stands in `specs/`: the value of
//! an expression (`Value`), one clock edge of a module (`Edge`), a module with all its instances
//! (`Flat`), and a run as the outer ports show it (`Run`, with the ports in `Ports` and what a run of
//! one input and one output gives in `Streams`).
//!
//! `Formed` says which designs there are, `Rules` which of them are accepted, and `Faults` what a
//! design breaks that is not. The functions of this crate are laws: each does nothing, and its
//! contract is a fact that holds of every design.
#![tactic(auto)]

mod design;
mod error;
mod ids;
mod interface;
mod laws;
mod queries;
#[cfg(test)]
mod tests;

pub use design::{Assign, Design, Expr, Instance, Mem, Module, Net, Port, Sign, Target, Update};
pub use error::RtlError;
pub use ids::{MemId, ModuleId, NetId};
pub use interface::{Interface, KernelPorts, ScalarPort, StreamPorts};
pub use laws::{
    flat_by_parts, growth, levelled_free, no_flat_loop, one_family, one_run, words_kept,
};
