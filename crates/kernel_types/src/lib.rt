//! The law that the nodes of every kernel are well typed, and have counters that count.
#![tactic(auto)]

mod law;

pub use law::nodes_are_typed;
