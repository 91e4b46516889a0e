// What the search for an order finds.

/// What the search for an order finds.
#[derive(Drop)]
pub enum Found {
    /// Each node's place, which is above those of all nodes that it reads.
    Ranks(Order),
    /// Nodes each of which is read by the next one, and the last by the first.
    Walk(Vec<u32>),
}

/// The nodes in an order in which each comes after those that it reads, and each node's place in it, from 1.
#[derive(Drop)]
pub struct Order {
    pub nodes: Vec<u32>,
    pub rank: Vec<usize>,
}
