//! Tests of the crate `dual_check`, apart from it, so that a change of a test proves no function of it
//! again.
#![tactic(auto)]

#[cfg(test)]
mod checkable;
#[cfg(test)]
mod rows;
#[cfg(test)]
mod tests;
