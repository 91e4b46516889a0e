//! The delays of the nodes of a kernel's module.
//!
//! A node's pipeline shows its word after its latency, and behind the pipeline the word waits for
//! its readers, for some numbers of advances in rising order (`specs/Numbers`). For each wait there
//! is a delay, after the one before it or after the pipeline: the delays of a node are two chains
//! (`specs/Chains`). All chains are started before the wires of the words are there, and closed
//! when they are.
#![tactic(auto)]

mod closing;
mod laws;
mod node;
mod starting;

pub use closing::close_stages;
pub use laws::{delay_counts, followed_words, kept_words, pointer_sizes};
pub use node::NodeDelays;
pub use starting::start_stages;
