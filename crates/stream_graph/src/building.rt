// The graph as a builder.
ghost use Rattle.std.specs.Prelude.{◌≡◌, ◌+◌};

use crate::row::{Piece, Row};
use crate::{Builder, Graph, NodeId};
use counter_chains::CounterDigit;
use fix_arith::{RoundMode, StreamType};
use mx_bits::{Op, Word};

#[tactic(auto, using(crate::proofs::Behind::named, crate::proofs::Behind::plain, crate::proofs::Behind::args, crate::proofs::Rows::piece_new))]
impl Builder for Graph {
    ghost use Rattle.std.specs.Option.{option_map};
    ghost use Rattle.kernel_calls.specs.declared.call.Call.TheVariants.{Input, Output};
    ghost use Rattle.stream_graph.specs.Received.{HasSpace, Receives};

    type Var = NodeId;

    ghost made = { λ graph. graph.made };

    ghost has_room = { λ graph call. HasSpace graph call };

    ghost receives = { λ old call new. Receives old call new };

    fn input(&mut self, name: &[u8], t: StreamType, control: Option<NodeId>) -> NodeId
        requires { HasSpace self.old (Input name.now t (option_map (λ n. n) control)) }
        ensures call { Receives self.old (Input name.now t (option_map (λ n. n) control)) self.new }
        ensures number { result ≡ self.old.made }
        ensures count { self.new.made ≡ self.old.made + 1 }
    {
        let name = self.name(name);
        self.node(Row::Input(name, t, number_of(control)))
    }

    fn output(
        &mut self,
        name: &[u8],
        value: NodeId,
        control: Option<NodeId>,
        t: StreamType,
    ) -> NodeId
        requires { HasSpace self.old (Output name.now value (option_map (λ n. n) control) t) }
        ensures call { Receives self.old (Output name.now value (option_map (λ n. n) control) t) self.new }
        ensures number { result ≡ self.old.made }
        ensures count { self.new.made ≡ self.old.made + 1 }
    {
        let name = self.name(name);
        self.node(Row::Output(name, value, number_of(control), t))
    }

    fn scalar(&mut self, name: &[u8], t: StreamType) -> NodeId {
        let name = self.name(name);
        self.node(Row::Scalar(name, t))
    }

    fn constant(&mut self, word: Word, t: StreamType) -> NodeId {
        self.node(Row::Constant(word.bits(), t))
    }

    fn operation(
        &mut self,
        op: Op,
        mode: RoundMode,
        amount: u8,
        args: &[NodeId],
        t: StreamType,
    ) -> NodeId {
        let args = self.args(args);
        self.node(Row::Operation(op, mode, amount, args, t))
    }

    fn offset(&mut self, value: NodeId, k: i32, t: StreamType) -> NodeId {
        self.node(Row::Offset(value, k, t))
    }

    fn feed(&mut self, t: StreamType) -> NodeId {
        self.node(Row::Feed(t))
    }

    fn connect(&mut self, feed: NodeId, value: NodeId) {
        self.row(Row::Connect(feed, value));
    }

    fn hold(&mut self, value: NodeId, store: NodeId, t: StreamType) -> NodeId {
        self.node(Row::Hold(value, store, t))
    }

    fn counter(&mut self, digit: CounterDigit) -> NodeId {
        self.node(Row::Counter(digit))
    }

    fn chain(&mut self) -> NodeId {
        self.node(Row::Chain)
    }

    fn chain_digit(&mut self, chain: NodeId, digit: CounterDigit) -> NodeId {
        self.node(Row::ChainDigit(chain, digit))
    }
}

// The number of the node, where there is one.
fn number_of(node: Option<NodeId>) -> Option<u32>
    ensures { result ≡ node }
{
    match node {
        Some(node) => Some(node.number()),
        None => None,
    }
}
