//! Tests of the crates `rtl_delays`, `kernel_stages` and `kernel_control`, apart from them, so
//! that a change of a test proves no function of theirs again. Each of their public calls is made
//! once where memory is ample.
#![tactic(auto)]

#[cfg(test)]
mod control;
#[cfg(test)]
mod delays;
#[cfg(test)]
mod inputs;
#[cfg(test)]
mod ports;
#[cfg(test)]
mod settled;
mod signals;
#[cfg(test)]
mod stages;
#[cfg(test)]
mod tests;
