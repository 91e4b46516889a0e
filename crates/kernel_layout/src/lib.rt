//! Where the words of a kernel's nodes stand in its module, at the times of a schedule: how many
//! advances after a word was computed each operand is read, how long a word waits behind its
//! latency, and an order in which the nodes can be built.
#![tactic(auto)]

mod layout;
mod order;
mod reads;
mod waits;

pub use layout::{Layout, lay_out};
pub use reads::Read;
