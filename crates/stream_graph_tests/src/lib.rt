//! Tests of the crate `stream_graph`, apart from it, so that a change of a test proves no function of it again.
#![tactic(auto)]

mod sum3;

pub use sum3::make;

#[cfg(test)]
mod tests;
