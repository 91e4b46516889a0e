// What can be wrong with a node once all calls are made.
ghost use Rattle.std.specs.Prelude.{◌≡◌, ◌<◌, ◌^◌, length, IfSome, IfNone};
ghost use Rattle.stream_graph.specs.Faults.{has_fault, IsFirst, HasAt, NoneHas};

use crate::NodeId;
use crate::node::{Kind, Node};

/// What can be wrong with a node, in the order in which it is looked for.
#[derive(Clone, Copy, Debug, PartialEq, Eq)]
pub(crate) enum Fault {
    /// A chain has no digit.
    EmptyChain,
    /// Two values or more are connected to a feed.
    ConnectedTwice,
    /// Nothing is connected to a feed.
    Unconnected,
}

impl Fault {
    // Whether a node has this fault.
    fn stands(self, node: &Node) -> bool
        ensures { result ≡ has_fault self node.now }
    {
        match (self, node.view.kind) {
            (Fault::EmptyChain, Kind::Chain) => node.digits.len() == 0,
            (Fault::ConnectedTwice, Kind::Feed) => node.operands.len() >= 2,
            (Fault::Unconnected, Kind::Feed) => node.operands.len() == 0,
            _ => false,
        }
    }

    /// The first node with this fault.
    pub fn first(self, nodes: &[Node]) -> Option<NodeId>
        requires { length nodes.now < 2 ^ 32 }
        ensures some { IfSome result (IsFirst (HasAt self nodes.now)) }
        ensures none { IfNone result (NoneHas self nodes.now) }
    {
        for number in 0..nodes.len() {
            if self.stands(&nodes[number]) {
                return Some(NodeId::new(number as u32));
            }
        }
        None
    }
}
