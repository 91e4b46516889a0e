//! Tests of the crate `maxj_tokens`, apart from it, so that a change of a test proves no function of it again.
#![tactic(auto)]

#[cfg(test)]
mod fault_tests;
#[cfg(test)]
mod tests;
