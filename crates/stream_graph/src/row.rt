// Calls, whose names and operands stand in longer lists.
use crate::NodeId;
use counter_chains::CounterDigit;
use fix_arith::{RoundMode, StreamType};
use mx_bits::Op;

/// Items of a longer list: from a place on, so many.
#[derive(Clone, Copy, PartialEq, Eq)]
pub struct Piece {
    pub from: u32,
    pub len: u32,
}

/// A call, whose name or operands stand in a longer list.
#[derive(Clone, Copy, PartialEq, Eq)]
pub enum Row {
    Input(Piece, StreamType, Option<u32>),
    Output(Piece, NodeId, Option<u32>, StreamType),
    Scalar(Piece, StreamType),
    Constant(u128, StreamType),
    Operation(Op, RoundMode, u8, Piece, StreamType),
    Offset(NodeId, i32, StreamType),
    Feed(StreamType),
    Connect(NodeId, NodeId),
    Hold(NodeId, NodeId, StreamType),
    Counter(CounterDigit),
    Chain,
    ChainDigit(NodeId, CounterDigit),
}
