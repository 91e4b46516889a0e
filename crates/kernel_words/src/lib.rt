//! What a kernel computes, word by word: the words of all of its nodes in all ticks of a run, the
//! words of its ports, and where a control or a store is undefined first.
#![tactic(auto)]

mod cell;
mod evaluate;
mod given;
mod guarded;
mod nodes;
mod ports;
mod run;
mod settle;
mod streams;
mod words;

pub use given::is_given;
pub use guarded::first_unguarded;
pub use ports::{is_enabled, port_words};
pub use run::KernelRun;
pub use settle::kernel_streams;
pub use streams::Streams;
