// A builder that only counts.
ghost use Rattle.std.specs.Prelude.{◌≡◌, ◌+◌, ◌<◌, ◌^◌};
ghost use Rattle.stream_graph.specs.Counts.{raised};

use crate::{Builder, NodeId};
use counter_chains::CounterDigit;
use fix_arith::{RoundMode, StreamType};
use mx_bits::{Op, Word};

/// Counts what the calls of a kernel make. A count but that of the nodes stays at its last value,
/// 2^32 - 1, once it stands there.
#[derive(Clone, Copy, PartialEq, Eq)]
pub struct Tally {
    pub nodes: u32,
    pub operands: u32,
    pub bytes: u32,
    pub digits: u32,
    pub connections: u32,
}

impl Builder for Tally {
    ghost use Rattle.std.specs.Option.{option_map};
    ghost use Rattle.kernel_calls.specs.declared.call.Call.TheVariants.{Input, Output};
    ghost use Rattle.stream_graph.specs.Counts.{Counted, HasPlace};

    type Var = NodeId;

    ghost made = { λ tally. tally.nodes };

    ghost has_room = { λ tally call. HasPlace tally call };

    ghost receives = { λ old call new. Counted old call new };

    fn input(&mut self, name: &[u8], t: StreamType, control: Option<NodeId>) -> NodeId
        requires { HasPlace self.old (Input name.now t (option_map (λ n. n) control)) }
        ensures call { Counted self.old (Input name.now t (option_map (λ n. n) control)) self.new }
        ensures number { result ≡ self.old.nodes }
        ensures count { self.new.nodes ≡ self.old.nodes + 1 }
    {
        let _unused = t;
        self.bytes = with_more(self.bytes, name.len());
        self.node(control.is_some() as usize)
    }

    fn output(
        &mut self,
        name: &[u8],
        value: NodeId,
        control: Option<NodeId>,
        t: StreamType,
    ) -> NodeId
        requires { HasPlace self.old (Output name.now value (option_map (λ n. n) control) t) }
        ensures call { Counted self.old (Output name.now value (option_map (λ n. n) control) t) self.new }
        ensures number { result ≡ self.old.nodes }
        ensures count { self.new.nodes ≡ self.old.nodes + 1 }
    {
        let _unused = (value, t);
        self.bytes = with_more(self.bytes, name.len());
        self.node(1 + control.is_some() as usize)
    }

    fn scalar(&mut self, name: &[u8], _t: StreamType) -> NodeId {
        self.bytes = with_more(self.bytes, name.len());
        self.node(0)
    }

    fn constant(&mut self, _word: Word, _t: StreamType) -> NodeId {
        self.node(0)
    }

    fn operation(
        &mut self,
        _op: Op,
        _mode: RoundMode,
        _amount: u8,
        args: &[NodeId],
        _t: StreamType,
    ) -> NodeId {
        self.node(args.len())
    }

    fn offset(&mut self, _value: NodeId, _k: i32, _t: StreamType) -> NodeId {
        self.node(1)
    }

    fn feed(&mut self, _t: StreamType) -> NodeId {
        self.node(0)
    }

    fn connect(&mut self, _feed: NodeId, _value: NodeId) {
        self.operands = with_more(self.operands, 1);
        self.connections = with_more(self.connections, 1);
    }

    fn hold(&mut self, _value: NodeId, _store: NodeId, _t: StreamType) -> NodeId {
        self.node(2)
    }

    fn counter(&mut self, _digit: CounterDigit) -> NodeId {
        self.digits = with_more(self.digits, 1);
        self.node(0)
    }

    fn chain(&mut self) -> NodeId {
        self.node(0)
    }

    fn chain_digit(&mut self, _chain: NodeId, _digit: CounterDigit) -> NodeId {
        self.digits = with_more(self.digits, 1);
        self.node(1)
    }
}

#[tactic(auto, using(crate::proofs::Rooms::tally_room))]
impl Tally {
    ghost use Rattle.std.specs.Prelude.{List};
    ghost use Rattle.kernel_calls.specs.declared.call.Call.{Call};
    ghost use Rattle.kernel_calls.specs.Laws.{HasRoom};
    ghost use Rattle.stream_graph.specs.Counts.{Counted, HasPlace, AreFew, empty};

    /// Nothing is counted yet. There is room for all calls that together make fewer than 2^32 nodes.
    pub fn new() -> Tally
        ensures empty { result ≡ empty }
        ensures room { (calls : List Call) → AreFew result calls → HasRoom HasPlace Counted result calls }
    {
        Tally {
            nodes: 0,
            operands: 0,
            bytes: 0,
            digits: 0,
            connections: 0,
        }
    }

    // A node with so many operands.
    fn node(&mut self, operands: usize) -> NodeId
        requires nodes { self.old.nodes + 1 < 2 ^ 32 }
        ensures number { result ≡ self.old.nodes }
        ensures made { self.new ≡ record self.old { nodes = self.old.nodes + 1; operands = raised self.old.operands operands } }
    {
        let number = NodeId::new(self.nodes);
        self.nodes += 1;
        self.operands = with_more(self.operands, operands);
        number
    }
}

// A count with so many more, or its last value.
fn with_more(count: u32, more: usize) -> u32
    ensures { result ≡ raised count more }
{
    let sum = (count as u64).saturating_add(more as u64);
    sum.min(u32::MAX as u64) as u32
}
