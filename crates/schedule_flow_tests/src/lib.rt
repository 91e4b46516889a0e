//! Tests of the crates `schedule_flow` and `fifo_sharing`, apart from them, so that a change of a test
//! proves no function of them again.
#![tactic(auto)]

#[cfg(test)]
mod problems;
#[cfg(test)]
mod rows;
#[cfg(test)]
mod tests;
