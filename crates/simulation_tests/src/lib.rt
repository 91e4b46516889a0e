//! Tests of the crate `simulation`, apart from it, so that a change of a test proves no function of it
//! again.
#![tactic(auto)]

#[cfg(test)]
mod plan_tests;
#[cfg(test)]
mod stop_tests;
