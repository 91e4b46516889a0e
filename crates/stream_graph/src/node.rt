// A node of a kernel.
ghost use Rattle.std.specs.Prelude.{◌≡◌, ◌+◌, ◌<◌, ◌^◌, ◌++◌, ◌∷◌, [], false, length, IfOk, OnOk};
ghost use Rattle.fix_arith.specs.declared.types.StreamType.TheVariants.{UInt};
ghost use Rattle.stream_graph.specs.Parts.{bits_of};

use crate::NodeId;
use counter_chains::CounterDigit;
use fix_arith::{RoundMode, StreamType};
use mx_base::{List, NoMemory, Text};
use mx_bits::{Op, Word};
use std::alloc::Global;

/// What a node is.
#[derive(Clone, Copy, Debug, PartialEq, Eq)]
pub enum Kind {
    Input,
    Output,
    Scalar,
    /// The word that it is in each tick, of the width of the node's type.
    Constant(Word),
    /// The operation, how it rounds, and the amount of a shift, which is 0 for other operations.
    Operation(Op, RoundMode, u8),
    /// How many ticks it looks ahead, below 0 for the past.
    Offset(i32),
    Feed,
    Hold,
    Counter,
    Chain,
    /// The place of its digit in the chain, from 0.
    Part(u32),
}

/// What a node shows of itself: what it is, the type of its words, and whether it is a port with a
/// control.
#[derive(Clone, Copy, Debug, PartialEq, Eq)]
pub struct NodeView {
    pub kind: Kind,
    pub t: StreamType,
    pub controlled: bool,
}

/// A node with all that belongs to it: its operands, its name where it is a port, and its digits
/// where it counts.
#[derive(Debug, Drop)]
pub(crate) struct Node {
    pub view: NodeView,
    pub operands: List<NodeId>,
    pub name: Text,
    pub digits: List<CounterDigit>,
}

impl Node {
    /// A node of this kind and type with nothing else. It takes no memory.
    pub fn bare(alloc: Global, kind: Kind, t: StreamType) -> Self
        ensures view { result.view ≡ record { kind = kind; t = t; controlled = false } }
        ensures operands { result.operands ≡ [] }
        ensures name { result.name ≡ [] }
        ensures digits { result.digits ≡ [] }
    {
        Node {
            view: NodeView {
                kind,
                t,
                controlled: false,
            },
            operands: List::new(alloc),
            name: Text::from_vec(Vec::new(alloc)),
            digits: List::new(alloc),
        }
    }
    /// A node of this kind and type with these operands and nothing else.
    pub fn over(
        alloc: Global,
        kind: Kind,
        t: StreamType,
        operands: &[NodeId],
    ) -> Result<Self, NoMemory>
        ensures view { IfOk result (λ node. node.view ≡ record { kind = kind; t = t; controlled = false }) }
        ensures operands { IfOk result (λ node. node.operands ≡ operands.now) }
        ensures name { IfOk result (λ node. node.name ≡ []) }
        ensures digits { IfOk result (λ node. node.digits ≡ []) }
    {
        let node = Node::bare(alloc, kind, t);
        Ok(Node {
            operands: List::from_vec(operands.to_vec(alloc)?),
            ..node
        })
    }

    /// Gives a chain its next digit, and answers the place of it.
    pub fn gain(&mut self, digit: CounterDigit) -> Result<u32, NoMemory>
        requires few { length self.old.digits < 2 ^ 32 }
        requires bits { bits_of self.old.view.t + digit.bits < 2 ^ 8 }
        ensures place { IfOk result (λ place. place ≡ length self.old.digits) }
        ensures gained { OnOk result (self.new ≡ record self.old {
          view = record self.old.view { t = UInt (bits_of self.old.view.t + digit.bits) };
          digits = self.old.digits ++ digit ∷ [];
        }) }
    {
        let place = self.digits.len() as u32;
        self.digits.push(digit)?;
        self.view.t = StreamType::UInt(bits_of(self.view.t) + digit.bits);
        Ok(place)
    }
}

// The bits of a chain so far.
fn bits_of(t: StreamType) -> u8
    ensures { result ≡ bits_of t }
{
    match t {
        StreamType::UInt(bits) => bits,
        _ => 0,
    }
}
