//! The calls by which a kernel is made, what receives them, and the kernel of which they are the
//! nodes.
//!
//! A [`Builder`] receives the calls. A [`Tally`] counts what they need; a [`Graph`] that was reserved
//! by it keeps them, and takes no memory for any.
#![tactic(auto)]

mod builder;
mod building;
mod error;
mod fault;
mod finish;
mod graph;
mod kernel;
mod names;
mod node;
mod node_id;
mod nodes;
mod ports;
mod refusal;
mod reserve;
mod reserved;
mod role;
mod row;
mod tally;

pub use builder::{Builder, Numbered};
pub use error::GraphError;
pub use graph::Graph;
pub use kernel::Kernel;
pub use node::{Kind, NodeView};
pub use node_id::NodeId;
pub use role::{PortSide, Role};
pub use tally::Tally;
