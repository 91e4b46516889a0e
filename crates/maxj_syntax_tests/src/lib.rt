//! Tests of the crate `maxj_syntax`, apart from it, so that a change of a test proves no function of it again.
#![tactic(auto)]

#[cfg(test)]
mod parse_tests;
#[cfg(test)]
mod project_tests;
