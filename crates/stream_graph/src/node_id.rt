// The number of a node.
ghost use Rattle.std.specs.Prelude.{◌≡◌, ◌<◌, ◌^◌, ℕ};

use crate::Numbered;
use std::marker::Model;

/// The number of a node in its kernel, from 0. A contract sees the number alone.
#[derive(Clone, Copy, Debug, Default, PartialEq, Eq)]
pub struct NodeId {
    number: u32,
}

impl Model for NodeId {
    ghost Value = { ℕ };

    ghost view = { λ a. a.number };

    ghost invariant = { λ a. a.number < 2 ^ 32 };

    ghost inverse = { λ n. record { number = n } };
}

impl NodeId {
    /// The node with this number.
    pub fn new(number: u32) -> Self
        ensures { result ≡ number }
    {
        NodeId { number }
    }

    /// The number.
    pub fn number(self) -> u32
        ensures { result ≡ self }
    {
        self.number
    }

    /// The number, as an index.
    pub fn index(self) -> usize
        ensures number { result ≡ self }
        ensures range { self < 2 ^ 32 }
    {
        self.number as usize
    }
}

impl Numbered for NodeId {
    ghost number = { λ n. n };
}
