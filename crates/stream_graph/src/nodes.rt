// The nodes that the calls of a graph make.
ghost use Rattle.std.specs.Prelude.{◌≡◌, ◌≤◌, ◌<◌, ◌^◌, ◌∷◌, [], true, length, List, IfOk, OnOk};
ghost use Rattle.kernel_calls.specs.declared.call.Call.{Call};
ghost use Rattle.kernel_calls.specs.Calls.{count_of};
ghost use Rattle.kernel_calls.specs.Laws.{AreLawful};
ghost use Rattle.stream_graph.specs.Graphs.{piece, call_by, ends_by, IsWithin};
ghost use Rattle.stream_graph.specs.Nodes.{IsNode, AreNodes, later};
ghost use Rattle.stream_graph.specs.Steps.{is_plain, IsPort, FitsType, MayAdd, Adds};

use crate::node::{Kind, Node};
use crate::row::{Piece, Row};
use crate::{Graph, NodeId};
use fix_arith::StreamType;
use mx_base::{NoMemory, Text};
use mx_bits::Word;
use std::alloc::Global;

impl Graph {
    ghost use Rattle.stream_graph.specs.Received.{received};

    /// A name.
    pub(crate) fn name_at(&self, name: Piece) -> &[u8]
        requires { ends_by (length self.now.bytes.items.items) name ≡ true }
        ensures { result.now ≡ piece self.now.bytes.items.items name }
    {
        let from = name.from as usize;
        &self.bytes.as_slice()[from..from + name.len as usize]
    }

    // The operands of an operation.
    fn operands_at(&self, args: Piece) -> &[NodeId]
        requires { ends_by (length self.now.operands.items.items) args ≡ true }
        ensures { result.now ≡ piece self.now.operands.items.items args }
    {
        let from = args.from as usize;
        &self.operands.as_slice()[from..from + args.len as usize]
    }

    // A port: its name, and its control where it has one, behind its other operands.
    fn port(
        &self,
        alloc: Global,
        node: Node,
        name: Piece,
        control: Option<u32>,
    ) -> Result<Node, NoMemory>
        requires { ends_by (length self.now.bytes.items.items) name ≡ true }
        ensures { IfOk result (λ port. IsPort node (piece self.now.bytes.items.items name) control port) }
    {
        let mut node = node;
        node.name = Text::from_vec(self.name_at(name).to_vec(alloc)?);
        if let Some(control) = control {
            node.view.controlled = true;
            node.operands.push(NodeId::new(control))?;
        }
        Ok(node)
    }

    // The node of a call that neither connects a feed nor gives a chain a digit.
    fn plain(&self, alloc: Global, row: Row) -> Result<Node, NoMemory>
        requires plain { is_plain row ≡ true }
        requires within { IsWithin (length self.now.bytes.items.items) (length self.now.operands.items.items) row }
        requires fits { FitsType row }
        ensures { IfOk result (λ node. IsNode [] 0 (call_by self.now.bytes.items.items self.now.operands.items.items row) node) }
    {
        match row {
            Row::Input(name, t, control) => {
                self.port(alloc, Node::bare(alloc, Kind::Input, t), name, control)
            }
            Row::Output(name, value, control, t) => {
                let node = Node::over(alloc, Kind::Output, t, &[value])?;
                self.port(alloc, node, name, control)
            }
            Row::Scalar(name, t) => {
                self.port(alloc, Node::bare(alloc, Kind::Scalar, t), name, None)
            }
            Row::Constant(bits, t) => {
                let word = Word::new(bits, t.width());
                Ok(Node::bare(alloc, Kind::Constant(word), t))
            }
            Row::Operation(op, mode, amount, args, t) => Node::over(
                alloc,
                Kind::Operation(op, mode, amount),
                t,
                self.operands_at(args),
            ),
            Row::Offset(value, k, t) => Node::over(alloc, Kind::Offset(k), t, &[value]),
            Row::Feed(t) => Ok(Node::bare(alloc, Kind::Feed, t)),
            Row::Hold(value, store, t) => Node::over(alloc, Kind::Hold, t, &[value, store]),
            Row::Counter(digit) => {
                let mut node = Node::bare(alloc, Kind::Counter, StreamType::UInt(digit.bits));
                node.digits.push(digit)?;
                Ok(node)
            }
            Row::Chain => Ok(Node::bare(alloc, Kind::Chain, StreamType::UInt(0))),
            Row::Connect(..) | Row::ChainDigit(..) => unreachable!(),
        }
    }
    // The nodes once one more call is received.
    fn add(&self, alloc: Global, nodes: &mut Vec<Node>, row: Row) -> Result<(), NoMemory>
        requires within { IsWithin (length self.now.bytes.items.items) (length self.now.operands.items.items) row }
        requires may { MayAdd nodes.old.items (call_by self.now.bytes.items.items self.now.operands.items.items row) }
        ensures { OnOk result (Adds nodes.old.items (call_by self.now.bytes.items.items self.now.operands.items.items row) nodes.new.items) }
    {
        match row {
            Row::Connect(feed, value) => nodes[feed.index()].operands.push(value),
            Row::ChainDigit(chain, digit) => {
                let place = nodes[chain.index()].gain(digit)?;
                let t = StreamType::UInt(digit.bits);
                let mut part = Node::over(alloc, Kind::Part(place), t, &[chain])?;
                part.digits.push(digit)?;
                nodes.push(part)?;
                Ok(())
            }
            _ => {
                let node = self.plain(alloc, row)?;
                nodes.push(node)?;
                Ok(())
            }
        }
    }

    /// The nodes that the calls make, in order.
    pub(crate) fn nodes(&self, alloc: Global) -> Result<Vec<Node>, NoMemory>
        requires lawful { AreLawful [] (received self.now) }
        ensures { IfOk result (λ nodes. AreNodes (later [] (received self.now)) nodes.items) }
    {
        let mut nodes = Vec::with_capacity(alloc, self.made as usize)?;
        for row in self.rows.as_slice() {
            self.add(alloc, &mut nodes, *row)?;
        }
        Ok(nodes)
    }
}
