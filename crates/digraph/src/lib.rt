//! Searches in directed graphs whose nodes are numbered from 0: an order in which each node comes
//! after those that it reads, or a closed walk; and the nodes from which there is a way to a node.
//!
//! A graph is a slice of rows: its row at place `n` lists the nodes that node `n` reads. Nodes that
//! read many of the same list can share it, and then a row takes a bit for each node of the list.
//! Each search takes time linear in the nodes and in the items of these rows.
#![tactic(auto)]

mod cone;
mod marks;
mod order;
mod ranking;
mod row;
mod search;
mod walk;

pub use cone::fan_in;
pub use marks::{Marks, greatest};
pub use order::{Found, Order};
pub use ranking::rank;
pub use row::Row;
