//! Tests of the crate `kernel_words`, apart from it, so that a change of a test proves no function
//! of it again: worked kernels with the words that they compute.
#![tactic(auto)]

#[cfg(test)]
mod kernels;
#[cfg(test)]
mod running;
#[cfg(test)]
mod tests;
