//! Tests of the crate `verilog_print`, apart from it, so that a change of a test proves no function of it
//! again.
#![tactic(auto)]

#[cfg(test)]
mod tests;
