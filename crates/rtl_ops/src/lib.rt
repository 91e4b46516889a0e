//! Operations on the words of streams, as wires and assignments of a module.
#![tactic(auto)]

mod casts;
mod choice;
mod compare;
mod literals;
mod operations;
mod products;
mod quotients;
mod rounding;
mod widths;

pub use operations::fragment;
