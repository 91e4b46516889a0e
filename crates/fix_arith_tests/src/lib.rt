//! Tests of the crate `fix_arith`, apart from it, so that a change of a test proves no function of it again.
#![tactic(auto)]

#[cfg(test)]
mod cast_tests;
#[cfg(test)]
mod literal_tests;
#[cfg(test)]
mod table_tests;
