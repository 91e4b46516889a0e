// The values of expressions, and the types of variables.
use crate::{End, Side};
use fix_arith::StreamType;
use mx_base::Text;

/// A type that is no array.
#[derive(Clone, Copy, PartialEq, Eq)]
pub enum Base {
    Int,
    Boolean,
    Str,
    Stream,
    StreamType,
    Chain,
    Block,
    Link,
    KernelParameters,
    EngineParameters,
}

/// The type of a variable: arrays of arrays, `rank` deep, of the base.
#[derive(Clone, Copy, PartialEq, Eq)]
pub struct Declared {
    pub base: Base,
    pub rank: u32,
}

/// The value of an expression. What isn't set, and a call that ends without a value, has `Nothing`.
#[derive(Drop)]
pub enum Value {
    Nothing,
    Int(i32),
    Flag(bool),
    Str(Text),
    Type(StreamType),
    /// The number of a node, the type of its words, and whether it is a feed.
    Stream {
        node: u32,
        of: StreamType,
        feed: bool,
    },
    /// The number of a chain's node.
    Chain(u32),
    /// The number of an array among those of the run, and the type of its elements.
    Array {
        number: u32,
        of: Declared,
    },
    /// A wide or decimal literal: whether it is below 0, its digits as a number, and how many of
    /// them stand behind the point.
    Literal {
        negative: bool,
        digits: u128,
        tens: u8,
    },
    /// The first parameter of a kernel.
    Parameters,
    /// The parameter of a manager.
    Engine,
    /// The number of a kernel among those that the manager added.
    Block(u32),
    /// An end of a join, and the side of `<==` that it may stand on.
    Link {
        end: End,
        side: Side,
    },
}

/// What can be set: a variable by its name, a field by its place among the fields, counted from the
/// oldest, from 0, or the element of an array at a place, with its type.
#[derive(Drop)]
pub enum Spot {
    Variable(Text),
    Field(usize),
    Element {
        array: u32,
        place: u32,
        of: Declared,
    },
}
