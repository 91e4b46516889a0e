//! Tests of the crate `project_build`, apart from it, so that a change of a test proves no function
//! of it again: worked sources with the project that they build, or the line of their refusal.
#![tactic(auto)]

#[cfg(test)]
mod sources;
#[cfg(test)]
mod telling;
#[cfg(test)]
mod tests;
