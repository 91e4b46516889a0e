//! The design of a project runs as the stream equations of its kernels.
//!
//! `proofs/Network` has the kernels and FIFOs as a machine, `proofs/Networks` what leaves it, and
//! `proofs/Runs` that the design of a project is such a machine.
#![tactic(auto)]

mod laws;

pub use laws::project_runs;
