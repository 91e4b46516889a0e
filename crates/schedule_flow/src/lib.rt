//! Times of least cost under difference constraints, with the flow that shows that none cost less. A
//! guess by the network simplex method is taken up as far as it is right. Then the surplus that is left
//! is sent along shortest paths of the residual network (successive shortest paths: Ahuja, Magnanti and
//! Orlin, Network Flows, 1993, section 9.7), found by Dijkstra's method.
#![tactic(auto)]

mod adjacency;
mod arcs;
mod balance;
mod certified;
mod earliest;
mod follow;
mod guide;
mod network;
mod queue;
mod search;
mod settling;
mod simplex;
mod solver;
mod start;
mod tree;
mod way;

pub use network::{Residual, augment};
pub use solver::{BestError, best, best_counted};
