//! Tests of the crate `offset_edges`, apart from it, so that a change of a test proves no function of it again.
#![tactic(auto)]

mod kernels;

pub use kernels::{double, self_fed, sum3};

#[cfg(test)]
mod tests;
