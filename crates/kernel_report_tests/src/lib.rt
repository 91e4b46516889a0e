//! Tests of the crate `kernel_report`, apart from it, so that a change of a test proves no function
//! of it again.
#![tactic(auto)]

#[cfg(test)]
mod parts;
#[cfg(test)]
mod tests;
#[cfg(test)]
mod texts;
