//! The words of a balanced run leave the design of a project in time.
//!
//! `proofs/Counts` has how many words are due before a position, `proofs/Schedule` how a network
//! keeps up with the edges in which nothing waits, and `proofs/OnTime` that a project does.
#![tactic(auto)]

mod laws;

pub use laws::project_runs_on_time;
