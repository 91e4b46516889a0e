//! Tests of the crate `maxjc_core`, apart from it, so that a change of a test proves no function of it again.
#![tactic(auto)]

#[cfg(test)]
mod building_tests;
#[cfg(test)]
mod check_tests;
#[cfg(test)]
mod commands;
#[cfg(test)]
mod expect_tests;
#[cfg(test)]
mod files;
#[cfg(test)]
mod kernel_sources;
#[cfg(test)]
mod kernel_tests;
#[cfg(test)]
mod manager_tests;
#[cfg(test)]
mod schedule_tests;
#[cfg(test)]
mod simulate_tests;
#[cfg(test)]
mod state_tests;
#[cfg(test)]
mod storage_tests;
#[cfg(test)]
mod stored_bits_tests;
#[cfg(test)]
mod tests;
