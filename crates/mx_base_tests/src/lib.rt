//! Tests of the crate `mx_base`, apart from it, so that a change of a test proves no function of it again.
#![tactic(auto)]

#[cfg(test)]
mod failing;
#[cfg(test)]
mod tests;
