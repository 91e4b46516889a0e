//! Tests of the crate `kernel_eval`, apart from it, so that a change of a test proves no function
//! of it again: worked sources with what their constructors make.
#![tactic(auto)]

mod building;
mod kernels;
mod projects;

pub use building::{Built, build, build_alone};
pub use kernels::{ACC, DOUBLE, FOURTH, GUARD, LONG, NEXT, SELF, SQUARE, STENCIL, SUM3};
pub use projects::{RING, SPLIT_ADD};

#[cfg(test)]
mod fields;
#[cfg(test)]
mod nodes;
#[cfg(test)]
mod plans;
#[cfg(test)]
mod rows;
#[cfg(test)]
mod tests;
