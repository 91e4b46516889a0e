//! A module with the parts of a kernel at its times runs as the kernel.
//!
//! `specs/Built` says what the parts are and how they stand together, `specs/States` what counters
//! and stores show, `specs/Direct` over which edges a word is read in the same edge of the clock.
//! The functions do nothing: their contracts are the laws.
#![tactic(auto)]

mod laws;

pub use laws::{
    built_runs, no_direct_loop, parts_count, registers_count, registers_keep, sum_runs,
};
