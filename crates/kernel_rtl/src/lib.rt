//! The module of a kernel at the times of a schedule.
//!
//! First the ports, the position, the states of nodes and the delays of the words that wait; then
//! the words of the nodes in an order in which each comes after those that it reads; then the
//! control; and last what the delays follow and how the states step.
#![tactic(auto)]

mod control;
mod module;
mod outputs;
mod storage;
mod words;

pub use module::kernel_module;
