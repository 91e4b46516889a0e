//! Tests of the crate `kernel_schedule`, apart from it, so that a change of a test proves no function
//! of it again: schedules of worked sources.
#![tactic(auto)]

#[cfg(test)]
mod sums;
#[cfg(test)]
mod tests;
