//! What the stream equations say of one run of a project: the words of its streams to the CPU, and
//! where the run is first unguarded and first unbalanced.
//!
//! `specs/Expected` says what a value says of a run, and `specs/Refused` which runs are refused.
#![tactic(auto)]

mod balanced;
mod error;
mod expected;
mod expecting;
mod guarded;
mod outputs;
mod port;
mod size;

pub use error::ExpectError;
pub use expected::{Expected, UnbalancedLink, UnguardedPlace};
pub use expecting::{excess_words, expect};
